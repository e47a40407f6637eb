//! The console over any rig: a line of a script in, an answer out.
#![tactic(auto)]

ghost use Rattle.std.specs.Prelude.{◌≡◌, ℕ, ◌≤◌, true, length, if◌then◌else◌, Ok, Result};
ghost use Rattle.script.specs.declared.command.Command.{Command as Spoken};
ghost use Rattle.answers.specs.Text.{text_of, at_front};
ghost use Rattle.console.specs.Answering.{Reads, line_outcome, line_left, said, result_of, next_line, fits, answer_result, answer_left, answer_buffer, answer_length};
ghost use Rattle.console.specs.Booting.{FirstReads, boot_outcome, boot_result, boot_length};
ghost use Rattle.console.specs.Outcomes.{refused, outcome, left_by};
ghost use Rattle.console.specs.declared.fault.ConsoleFault.TheVariants.{Line};
ghost use Rattle.console.specs.Told.{told};

mod fault;

use answers::{ANSWER_BYTES, Answer};
pub use fault::{Cause, ConsoleFault, WRONG_FORM};
use part::events::Pin;
use reading::{ReadingFault, read};
use registers::causes::Trip;
use report::{REPORT_BYTES, WrongSize};
use rig::Rig;
use script::Command;
use script::first::hold_off;
use script::reader::command;

/// A rig, the address that its commands go to, and how many lines have been answered.
#[derive(Drop)]
pub struct Console<R> {
    rig: R,
    address: u8,
    line: u32,
}

/// What a command has to say when it is done; a report stands in its buffer.
// Not an `Answer`, which would keep that buffer borrowed and could be a refusal, which has a cause here.
#[derive(Clone, Copy, Debug, PartialEq, Eq)]
enum Reply {
    Done,
    Byte(u8),
    Report,
}

impl Reply {
    /// The answer to a line that was done, the report standing in its buffer.
    #[tactic(auto, unfolding(crate::specs::Answering::said, answers::specs::Text::text_of))]
    fn answer(self, report: &[u8; REPORT_BYTES]) -> Answer<'_>
        ensures { (n : ℕ) → text_of result ≡ said n (told (Ok self) report.now) }
    {
        match self {
            Reply::Done => Answer::Done,
            Reply::Byte(byte) => Answer::Byte(byte),
            Reply::Report => Answer::Report(report),
        }
    }
}

/// The number of the line after this one; the count rests at its greatest.
// On its own, since a proof knows the range of a parameter, and not that of `self.line` behind the buffer's test.
fn next_line(line: u32) -> u32
    ensures { result ≡ next_line line }
{
    line.saturating_add(1)
}

/// Writes the answer to a line that was refused, and makes its fault.
#[tactic(auto, unfolding(crate::specs::Answering::said, answers::specs::Text::text_of))]
fn refuse(line: u32, cause: Cause, out: &mut [u8; ANSWER_BYTES]) -> ConsoleFault
    ensures fault { result ≡ Line line cause }
    ensures written { out.new ≡ at_front (said line (refused cause)) out.old }
    ensures bound { length (said line (refused cause)) ≤ 541 }
{
    let number = cause.number();
    Answer::Refused { line, number }.put(out);
    ConsoleFault::Line { line, cause }
}

/// Writes the answer to a line: what it came to, the report standing in its buffer.
fn say(
    line: u32,
    reply: Result<Reply, Cause>,
    report: &[u8; REPORT_BYTES],
    out: &mut [u8; ANSWER_BYTES],
) -> Result<usize, ConsoleFault>
    ensures answers { result ≡ result_of line (told reply report.now) }
    ensures written { out.new ≡ at_front (said line (told reply report.now)) out.old }
    ensures bound { answer_length result ≤ 541 }
{
    match reply {
        Ok(reply) => Ok(reply.answer(report).put(out)),
        Err(cause) => Err(refuse(line, cause, out)),
    }
}

/// Answers the first line of a script, which says how many silences the rig owes at its start.
pub fn boot(line: &[u8], out: &mut [u8]) -> Result<(u8, usize), ConsoleFault>
    ensures reads { fits (length out.old) ≡ true → (s : Result ℕ ℕ) × FirstReads line.now s }
    ensures answers { (s : Result ℕ ℕ) → FirstReads line.now s → result ≡ boot_result (length out.old) s }
    ensures written { (s : Result ℕ ℕ) → FirstReads line.now s → out.new ≡ answer_buffer out.old 1 (boot_outcome s) }
    ensures bound { boot_length result ≤ 541 }
{
    let out = out.as_mut_array().ok_or(WrongSize)?;
    match hold_off(line) {
        Ok(silences) => Ok((silences, Answer::Done.put(out))),
        Err(column) => Err(refuse(1, Cause::Form { column }, out)),
    }
}

/// Does what a command says.
fn obey<R: Rig>(
    rig: &mut R,
    address: u8,
    command: Command,
    report: &mut [u8; REPORT_BYTES],
) -> Result<Reply, Cause>
    ensures answers { told result report.new ≡ outcome (R.Rig.meaning rig.old) address command }
    ensures after { R.Rig.meaning rig.new ≡ left_by (R.Rig.meaning rig.old) address command }
{
    match command {
        Command::Tick { current, voltage } => rig.tick(current, voltage)?,
        Command::On(level) => rig.pin(Pin::On, level),
        Command::Pol(level) => rig.pin(Pin::Pol, level),
        Command::Fast => rig.trip(Trip::Fast),
        Command::Slow => rig.trip(Trip::Slow),
        Command::Put { register, byte } => rig.put(address, register, byte)?,
        Command::Get(register) => return Ok(Reply::Byte(rig.get(address, register)?)),
        Command::Read => {
            read(rig, address, report)?;
            return Ok(Reply::Report);
        }
    }
    Ok(Reply::Done)
}

/// What a line comes to, by what it says: a wrong one comes to nothing but its column.
fn obey_line<R: Rig>(
    rig: &mut R,
    address: u8,
    spoken: Result<Command, usize>,
    report: &mut [u8; REPORT_BYTES],
) -> Result<Reply, Cause>
    ensures answers { told result report.new ≡ line_outcome (R.Rig.meaning rig.old) address spoken }
    ensures after { R.Rig.meaning rig.new ≡ line_left (R.Rig.meaning rig.old) address spoken }
{
    match spoken {
        Ok(command) => obey(rig, address, command, report),
        Err(column) => Err(Cause::Form { column }),
    }
}

impl<R: Rig> Console<R> {
    /// A console over a rig. The first line has been answered before: it says how the rig starts.
    pub fn new(rig: R, address: u8) -> Console<R>
        ensures rig { result.rig ≡ rig }
        ensures address { result.address ≡ address }
        ensures line { result.line ≡ 1 }
    {
        Console {
            rig,
            address,
            line: 1,
        }
    }

    /// Answers the next line at the front of the buffer, and keeps the rest of it.
    /// The size of the buffer is tested ahead of everything.
    pub fn answer(&mut self, line: &[u8], out: &mut [u8]) -> Result<usize, ConsoleFault>
        ensures reads { fits (length out.old) ≡ true → (s : Result Spoken ℕ) × Reads line.now s }
        ensures answers { (s : Result Spoken ℕ) → Reads line.now s → result ≡ answer_result (length out.old) (next_line self.old.line) (line_outcome (R.Rig.meaning self.old.rig) self.old.address s) }
        ensures after { (s : Result Spoken ℕ) → Reads line.now s → R.Rig.meaning self.new.rig ≡ answer_left (length out.old) (R.Rig.meaning self.old.rig) self.old.address s }
        ensures written { (s : Result Spoken ℕ) → Reads line.now s → out.new ≡ answer_buffer out.old (next_line self.old.line) (line_outcome (R.Rig.meaning self.old.rig) self.old.address s) }
        ensures counted { self.new.line ≡ (if fits (length out.old) then next_line self.old.line else self.old.line) }
        ensures address { self.new.address ≡ self.old.address }
        ensures bound { answer_length result ≤ 541 }
    {
        let out = out.as_mut_array().ok_or(WrongSize)?;
        self.line = next_line(self.line);
        let mut report = [0; REPORT_BYTES];
        let reply = obey_line(&mut self.rig, self.address, command(line), &mut report);
        say(self.line, reply, &report, out)
    }
}
