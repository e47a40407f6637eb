//! A whole script on the payload bay's part: the console over patience 2 on the wire rig.
#![tactic(auto)]

ghost use Rattle.std.specs.Prelude.{◌≡◌, ℕ, List, take, OnOk, IfOk, IfSome, Result};
ghost use Rattle.std.specs.Io.KnownBytes.{Appends};
ghost use Rattle.script.specs.declared.command.Command.{Command};
ghost use Rattle.console.specs.Answering.{Reads, line_outcome, line_left, said, next_line};
ghost use Rattle.session.specs.Answered.{ReadAs, answers, Answered, OneAnswer};
ghost use Rattle.answers.specs.declared.Answer.TheVariants.{Refused};

pub mod lines;

use answers::{ANSWER_BYTES, Answer};
use console::{Console, ConsoleFault, WRONG_FORM, boot};
use lines::{Lines, first_line};
use registers::pins::Pins;
use rig::{Patience, Rig};
use std::alloc::Global;
use std::io;
use std::io::{Read, Write};
use wire::Wire;

/// A longer script is refused whole.
pub const LONGEST_SCRIPT: usize = 65_536;

/// The address that the straps of the payload bay's part give.
pub const ADDRESS: u8 = 0x3A;

/// How often a call that met silence is tried again.
pub const PATIENCE: u8 = 2;

/// What a script that is too long is refused with, as if its form were wrong.
fn too_long() -> Answer<'static>
    ensures { result ≡ Refused 0 6 }
{
    Answer::Refused {
        line: 0,
        number: WRONG_FORM,
    }
}

/// Reads a script: of a longer one a byte more than the longest has, which tells that it is too long.
pub fn read<R: Read + Drop>(input: R, heap: Global) -> io::Result<Vec<u8>>
    ensures { IfOk result (λ script. IfSome (R.remaining input) (λ bytes. script.items ≡ take 65537 bytes)) }
{
    let mut script = Vec::new(heap);
    input
        .take(LONGEST_SCRIPT as u64 + 1)
        .read_to_end(&mut script)?;
    Ok(script)
}

/// Answers a line at the end of what is written.
fn answer_line<R: Rig, W: Write>(
    out: &mut W,
    console: &mut Console<R>,
    line: &[u8],
    buffer: &mut [u8; ANSWER_BYTES],
) -> io::Result<()>
    ensures answers { (s : Result Command ℕ) × Reads line.now s × (R.Rig.meaning console.new.rig ≡ line_left (R.Rig.meaning console.old.rig) console.old.address s) × OnOk result (Appends (W.contents out.old) (W.contents out.new) (said (next_line console.old.line) (line_outcome (R.Rig.meaning console.old.rig) console.old.address s))) }
    ensures counted { console.new.line ≡ next_line console.old.line }
    ensures address { console.new.address ≡ console.old.address }
{
    let length = console
        .answer(line, buffer)
        .unwrap_or_else(ConsoleFault::length);
    out.write_all(&buffer[..length])
}

/// Answers the lines after the first.
fn answer_lines<R: Rig, W: Write>(
    out: &mut W,
    console: &mut Console<R>,
    script: &[u8],
    buffer: &mut [u8; ANSWER_BYTES],
) -> io::Result<()>
    ensures { OnOk result ((ss : List (Result Command ℕ)) × ReadAs script.now ss × Appends (W.contents out.old) (W.contents out.new) (answers (R.Rig.meaning console.old.rig) console.old.address console.old.line ss)) }
{
    for line in Lines::new(script) {
        answer_line(out, console, line, buffer)?;
    }
    Ok(())
}

/// Answers a script, each line as it is done. Where all is written, it is the answer to the script.
// One buffer with a length beside it for all answers, a rule of the project: memory is the script and little more.
#[tactic(auto, using(crate::proofs::One::one_answer))]
pub fn run<W: Write>(out: &mut W, script: &[u8]) -> io::Result<()>
    ensures answered { OnOk result (Answered script.now (W.contents out.old) (W.contents out.new)) }
    ensures one { OneAnswer }
{
    let mut buffer = [0; ANSWER_BYTES];
    if script.len() > LONGEST_SCRIPT {
        let length = too_long().put(&mut buffer);
        return out.write_all(&buffer[..length]);
    }
    let (line, rest) = first_line(script);
    match boot(line, &mut buffer) {
        Ok((hold_off, length)) => {
            out.write_all(&buffer[..length])?;
            let rig = Patience::new(Wire::new(Pins::payload_bay(), hold_off), PATIENCE);
            answer_lines(out, &mut Console::new(rig, ADDRESS), rest, &mut buffer)
        }
        Err(fault) => out.write_all(&buffer[..fault.length()]),
    }
}
