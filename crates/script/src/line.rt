//! A line as text: the fields of a right one, or the first wrong column of any other.
//! Columns are counted from 1.
ghost use Rattle.std.specs.Prelude.{◌≤◌, ◌∷◌, length, MatchResult};
ghost use Rattle.script.specs.Grammar.{Right, FirstWrong, Wrong};
ghost use Rattle.script.specs.Said.{Said, SaidIsRight, OneColumn, RightNotWrong};

use crate::kind::Kind;
use crate::rest::Rest;

/// The most bytes that a line may have.
pub const LONGEST: usize = 16;

/// The text of a field, and the column of its first byte.
// A rule of the project: the column can't be told from the text alone.
#[derive(Clone, Copy, PartialEq, Eq, Debug)]
pub struct Field<'a> {
    pub text: &'a [u8],
    pub column: usize,
}

/// A right line, with its fields.
#[derive(Clone, Copy, PartialEq, Eq, Debug)]
pub enum Line<'a> {
    Tick {
        current: Field<'a>,
        voltage: Field<'a>,
    },
    On(Field<'a>),
    Pol(Field<'a>),
    Fast,
    Slow,
    Write {
        register: Field<'a>,
        byte: Field<'a>,
    },
    Get(Field<'a>),
    Read,
}

/// What a letter and the bytes after it say.
fn body(letter: char, after: &[u8]) -> Result<Line<'_>, usize>
    requires { length after.now ≤ 15 }
    ensures { MatchResult result (λ l. Said l (letter ∷ after.now)) (λ c. FirstWrong Right (letter ∷ after.now) c) }
{
    let rest = Rest::after_letter(after);
    match letter {
        'T' => {
            let (current, voltage) = rest.two_fields(Kind::Number)?;
            Ok(Line::Tick { current, voltage })
        }
        'O' => Ok(Line::On(rest.one_field(Kind::Bit)?)),
        'L' => Ok(Line::Pol(rest.one_field(Kind::Bit)?)),
        'F' => {
            rest.end()?;
            Ok(Line::Fast)
        }
        'S' => {
            rest.end()?;
            Ok(Line::Slow)
        }
        'W' => {
            let (register, byte) = rest.two_fields(Kind::Byte)?;
            Ok(Line::Write { register, byte })
        }
        'G' => Ok(Line::Get(rest.one_field(Kind::Byte)?)),
        'R' => {
            rest.end()?;
            Ok(Line::Read)
        }
        _ => Err(1),
    }
}

/// The fields of a right line, or the first wrong column.
// The error is a column and no type of its own: the column is all that is said of a wrong line.
#[tactic(auto, using(crate::proofs::Lines::empty_wrong))]
pub fn parse(line: &[u8]) -> Result<Line<'_>, usize>
    ensures read { MatchResult result (λ l. Said l line.now) (λ c. Wrong line.now c) }
    ensures right { SaidIsRight }
    ensures column { OneColumn Right }
    ensures apart { RightNotWrong Right }
{
    if line.len() > LONGEST {
        return Err(LONGEST + 1);
    }
    match line {
        [] => Err(1),
        [letter, after @ ..] => body(char::from(*letter), after),
    }
}
