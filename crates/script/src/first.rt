//! The first line of a script: the hold-off, a number of 0 to 255.
ghost use Rattle.std.specs.Prelude.{◌≡◌, ◌+◌, ◌-◌, ◌*◌, ◌&&◌, ◌∷◌, drop, if◌then◌else◌, Some, None, MatchResult, nat_le};
ghost use Rattle.std.specs.Str.Parse.{digits_value};
ghost use Rattle.script.specs.declared.class.Class.TheVariants.{Digit};
ghost use Rattle.script.specs.Grammar.{admits, FirstRight, FirstWrong, FirstLineWrong};
ghost use Rattle.script.specs.Said.{OneColumn, RightNotWrong};

use crate::kind::MOST_DIGITS;
use crate::line::LONGEST;

/// The number `n` with one digit more, unless the byte is no digit or the number leaves its byte.
fn lengthened(n: u8, byte: u8) -> Option<u8>
    ensures { result ≡ (if admits Digit byte && nat_le (n * 10 + (byte - 48)) 255 then Some (n * 10 + (byte - 48)) else None) }
{
    let digit = char::from(byte).to_digit(10)?;
    n.checked_mul(10)?.checked_add(digit as u8)
}

/// The number after `B` and a space, or the first wrong column of that line.
fn number(digits: &[u8]) -> Result<u8, usize>
    ensures { MatchResult result (λ n. FirstRight (66 ∷ 32 ∷ digits.now) × (n ≡ digits_value 10 digits.now)) (λ k. FirstWrong FirstRight (66 ∷ 32 ∷ digits.now) k) }
{
    if digits.is_empty() {
        return Err(3);
    }
    // a `for`: `try_fold` would carry the column through each step, and read no plainer
    let mut n: u8 = 0;
    for (i, digit) in digits.iter().enumerate() {
        if i == MOST_DIGITS {
            return Err(i + 3);
        }
        n = lengthened(n, *digit).ok_or(i + 3)?;
    }
    Ok(n)
}

/// The hold-off that the first line says, or its first wrong column.
// The error is a column and no type of its own: the column is all that is said of a wrong line.
#[tactic(auto, using(crate::proofs::Opening::wrong_letter, crate::proofs::Opening::wrong_space, crate::proofs::Stands::first_one_wrong, crate::proofs::Stands::first_wrong_right, std::proofs::lemmas::List::get_or_past))]
pub fn hold_off(line: &[u8]) -> Result<u8, usize>
    ensures column { OneColumn FirstRight }
    ensures apart { RightNotWrong FirstRight }
    ensures said { MatchResult result (λ n. FirstRight line.now × (n ≡ digits_value 10 (drop 2 line.now))) (λ k. FirstLineWrong line.now k) }
{
    if line.len() > LONGEST {
        return Err(LONGEST + 1);
    }
    match line {
        [b'B', b' ', digits @ ..] => number(digits),
        [b'B', ..] => Err(2),
        _ => Err(1),
    }
}
