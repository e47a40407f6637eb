//! The text of each answer, as long as it can get: a short one is made in little room.
ghost use Rattle.std.specs.Prelude.{◌≡◌, ◌+◌, ◌<◌, ◌≤◌, [], ◌∷◌, ◌++◌, length, decimal};
ghost use Rattle.arrayvec.specs.ArrayString.{array_string_len};
ghost use Rattle.answers.specs.Text.{hex_digit, hex_text, byte_text, report_text, refusal_text};

use arrayvec::ArrayString;
use itoa::Buffer;
use report::REPORT_BYTES;

/// The answer to a line that was done.
pub(crate) const DONE: &str = "ok\n";

/// How long the answer with a byte is.
pub(crate) const BYTE: usize = 5;

/// How long a report is, the longest answer: two digits for each byte, and a line feed.
const REPORT: usize = 541;

/// Room for a refusal, which has 28 bytes at most: the line's number has ten digits then, and its own three.
const REFUSAL: usize = 32;

/// How long the words of a refusal are, with the spaces and the line feed around its numbers.
const WORDS: usize = 15;

/// A hexadecimal digit, the high ones in capitals.
fn hex_digit(n: u8) -> char
    requires { n < 16 }
    ensures { result ≡ hex_digit n }
{
    char::from_digit(u32::from(n), 16)
        .unwrap()
        .to_ascii_uppercase()
}

/// Puts the two digits of a byte at the end.
// Digit by digit: `write!` of `{:02X}` promises them only if it gives `Ok`, and no clause says when it does.
fn push_hex<const CAP: usize>(text: &mut ArrayString<CAP>, byte: u8)
    requires { array_string_len text.old + 2 ≤ CAP }
    ensures { text.new.bytes ≡ text.old.bytes ++ hex_text (byte ∷ []) }
{
    text.push(hex_digit(byte / 16));
    text.push(hex_digit(byte % 16));
}

/// `= ` and the byte.
pub(crate) fn byte_text(byte: u8) -> ArrayString<BYTE>
    ensures { result.bytes ≡ byte_text byte }
{
    let mut text = ArrayString::new();
    text.push_str("= ");
    push_hex(&mut text, byte);
    text.push_str("\n");
    text
}

/// All bytes of a report, with nothing between them.
pub(crate) fn report_text(report: &[u8; REPORT_BYTES]) -> ArrayString<REPORT>
    ensures text { result.bytes ≡ report_text report.now }
    ensures long { array_string_len result ≡ 541 }
{
    let mut text = ArrayString::new();
    for byte in report {
        push_hex(&mut text, *byte);
    }
    text.push_str("\n");
    text
}

/// `line` and which one, `refusal` and which one.
// Piece by piece: `write!` promises its text only if it gives `Ok`, and no clause says when it does.
pub(crate) fn refusal_text(line: u32, number: u8) -> ArrayString<REFUSAL>
    ensures { result.bytes ≡ refusal_text line number }
{
    let mut digits = Buffer::new();
    let mut text = ArrayString::new();
    text.push_str("line ");
    text.push_str(digits.format(line));
    text.push_str(" refusal ");
    text.push_str(digits.format(number));
    text.push_str("\n");
    text
}

/// How many digits a number has.
fn digits(n: u32) -> usize
    ensures value { result ≡ length (decimal n) }
    ensures bound { result ≤ 10 }
{
    if n < 10 { 1 } else { digits(n / 10) + 1 }
}

/// How long a refusal is.
// Counted, and no text made: whoever has a refusal has its text already, and asks for its end alone.
pub(crate) fn refusal_length(line: u32, number: u8) -> usize
    ensures value { result ≡ length (refusal_text line number) }
    ensures bound { result ≤ 28 }
{
    digits(line) + digits(u32::from(number)) + WORDS
}
