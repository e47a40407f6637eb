//! Answers of a console: each is one line of text, at the front of a caller's buffer.
#![tactic(auto)]

ghost use Rattle.std.specs.Prelude.{◌≡◌, ◌≤◌, length, IfOk};
ghost use Rattle.answers.specs.Text.{text_of, at_front, written_length, written_buffer};

mod text;

use report::{REPORT_BYTES, WrongSize};
use text::{BYTE, DONE, byte_text, refusal_length, refusal_text, report_text};

/// How many bytes the buffer of an answer has. The longest answer, a report, leaves three of them as they were.
pub const ANSWER_BYTES: usize = 544;

/// The answer to one line of a script.
#[derive(Clone, Copy, Debug, PartialEq, Eq)]
pub enum Answer<'a> {
    /// The line was done, and there is nothing to show.
    Done,
    /// A byte was read.
    Byte(u8),
    /// A report was read.
    Report(&'a [u8; REPORT_BYTES]),
    /// The line was refused. Lines are counted, and reasons go by numbers.
    // A number, since the text shows no more of a reason: each fault of the crates above has a type of its own.
    Refused { line: u32, number: u8 },
}

impl Answer<'_> {
    /// Writes the answer at the front of the buffer and keeps the rest; says how long the answer is.
    // The bound is promised by each call above too, so that whoever has the length can cut the buffer there.
    #[tactic(auto, unfolding(crate::specs::Text::text_of))]
    pub fn put(self, out: &mut [u8; ANSWER_BYTES]) -> usize
        ensures end { result ≡ length (text_of self.entry) }
        ensures written { out.new ≡ at_front (text_of self.entry) out.old }
        ensures bound { result ≤ 541 }
    {
        match self {
            Answer::Done => put_text(DONE, out),
            Answer::Byte(byte) => put_text(byte_text(byte).as_str(), out),
            Answer::Report(report) => put_text(report_text(report).as_str(), out),
            Answer::Refused { line, number } => put_text(refusal_text(line, number).as_str(), out),
        }
    }

    /// How long the answer is.
    #[tactic(auto, unfolding(crate::specs::Text::text_of))]
    pub fn length(self) -> usize
        ensures { result ≡ length (text_of self.entry) }
    {
        match self {
            Answer::Done => DONE.len(),
            Answer::Byte(_) => BYTE,
            Answer::Report(report) => report_text(report).len(),
            Answer::Refused { line, number } => refusal_length(line, number),
        }
    }
}

/// Puts a text at the front of the buffer, and keeps the rest.
fn put_text(text: &str, out: &mut [u8; ANSWER_BYTES]) -> usize
    requires { length text.now ≤ 541 }
    ensures end { result ≡ length text.now }
    ensures written { out.new ≡ at_front text.now out.old }
{
    let end = text.len();
    out[..end].copy_from_slice(text.as_bytes());
    end
}

/// Writes the answer at the front of the buffer and keeps the rest; says how long the answer is.
/// A buffer of another size than an answer's is refused, and left as it was.
pub fn write(answer: Answer<'_>, out: &mut [u8]) -> Result<usize, WrongSize>
    ensures answers { result ≡ written_length answer.entry out.old }
    ensures written { out.new ≡ written_buffer answer.entry out.old }
    ensures bound { IfOk result (λ n. n ≤ 541) }
{
    let out = out.as_mut_array().ok_or(WrongSize)?;
    Ok(answer.put(out))
}
