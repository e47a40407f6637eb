//! From a line to its command: the fields' texts as values.
ghost use Rattle.std.specs.Prelude.{◌≡◌, ◌<◌, true, [], ◌∷◌, MatchResult, ◌==◌, slice_index};
ghost use Rattle.std.specs.Str.Parse.{digits_value};
ghost use Rattle.std.specs.Char.{digit_value};
ghost use Rattle.registers.specs.Pins.{level_of};
ghost use Rattle.script.specs.declared.class.Class.TheVariants.{Bit, Hex};
ghost use Rattle.script.specs.Grammar.{admits, one, number, Spells, Matches, Right, Wrong};
ghost use Rattle.script.specs.Said.{Spelled, spelling};
ghost use Rattle.script.specs.Commands.{meant};

use crate::command::Command;
use crate::line::{Line, parse};
use registers::pins::Level;

/// The value of one to four digits.
// A sum over the digits, here and below: to read them as text and parse that took twice as long.
fn decimal(text: &[u8]) -> u16
    requires { Spells number text.now }
    ensures { result ≡ digits_value 10 text.now }
{
    let mut n: u16 = 0;
    for byte in text {
        n = n * 10 + u16::from(*byte - b'0');
    }
    n
}

/// The value of a hexadecimal digit.
fn nibble(digit: u8) -> u8
    requires { admits Hex digit ≡ true }
    ensures value { result ≡ digit_value digit }
    ensures small { result < 16 }
{
    if digit <= b'9' {
        digit - b'0'
    } else {
        digit - b'A' + 10
    }
}

/// The value of two hexadecimal digits.
fn hex(text: &[u8]) -> u8
    requires { Matches (one Hex ∷ one Hex ∷ []) text.now }
    ensures { result ≡ digits_value 16 text.now }
{
    nibble(text[0]) * 16 + nibble(text[1])
}

/// The level that a bit says.
fn level(text: &[u8]) -> Level
    requires { Spells (one Bit) text.now }
    ensures { result ≡ level_of (slice_index text.now 0 == 49) }
{
    Level::from(text[0] == b'1')
}

/// The command of a line whose fields are spelled right.
#[tactic(auto, using(crate::proofs::Values::tick_fields))]
fn meaning(line: Line<'_>) -> Command
    requires { Spelled line }
    ensures { result ≡ meant (spelling line.entry) }
{
    match line {
        Line::Tick { current, voltage } => Command::Tick {
            current: decimal(current.text),
            voltage: decimal(voltage.text),
        },
        Line::On(field) => Command::On(level(field.text)),
        Line::Pol(field) => Command::Pol(level(field.text)),
        Line::Fast => Command::Fast,
        Line::Slow => Command::Slow,
        Line::Write { register, byte } => Command::Put {
            register: hex(register.text),
            byte: hex(byte.text),
        },
        Line::Get(field) => Command::Get(hex(field.text)),
        Line::Read => Command::Read,
    }
}

/// The command that a line says, or the first wrong column.
// The error is a column and no type of its own: the column is all that is said of a wrong line.
pub fn command(line: &[u8]) -> Result<Command, usize>
    ensures { MatchResult result (λ c. Right line.now × (c ≡ meant line.now)) (λ k. Wrong line.now k) }
{
    let said = parse(line)?;
    Ok(meaning(said))
}
