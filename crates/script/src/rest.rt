//! What is left of a line while its fields are read.
ghost use Rattle.std.specs.Prelude.{◌≡◌, ◌+◌, ◌≤◌, [], ◌∷◌, ◌++◌, length, take, drop, Some, MatchResult, take_while};
ghost use Rattle.script.specs.declared.class.Class.TheVariants.{Space};
ghost use Rattle.script.specs.Grammar.{admits, one};

use crate::class::Class;
use crate::kind::Kind;
use crate::line::Field;

/// What is left of a line, and the column of its first byte.
#[derive(Clone, Copy)]
pub struct Rest<'a> {
    bytes: &'a [u8],
    column: usize,
    // A line has sixteen bytes at most, and its columns are counted from 1.
    ghost fits: { column + length bytes.now ≤ 17 },
}

/// How many bytes of the class stand first, `most` at most.
fn run_length(bytes: &[u8], class: Class, most: usize) -> usize
    ensures { result ≡ length (take_while (λ b. admits class b) (take most bytes.now)) }
{
    bytes
        .iter()
        .take(most)
        .take_while(|byte| class.admits(**byte))
        .count()
}

impl<'a> Rest<'a> {
    // In here, since they name the struct: the struct, which has a ghost field, imports what is named at the head.
    ghost use Rattle.script.specs.Steps.{wrong_in, parts, Passed, Fails, Taken, Missed, Alone, Both};

    /// What stands after a line's letter.
    pub(crate) fn after_letter(bytes: &'a [u8]) -> Self
        requires { length bytes.now ≤ 15 }
        ensures bytes { result.bytes.now ≡ bytes.now }
        ensures column { result.column ≡ 2 }
    {
        Rest { bytes, column: 2 }
    }

    /// The next `count` bytes as a field.
    fn take(&mut self, count: usize) -> Field<'a>
        requires { count ≤ length self.old.bytes.now }
        ensures front { result.text.now ≡ take count self.old.bytes.now }
        ensures column { result.column ≡ self.old.column }
        ensures back { self.new.bytes.now ≡ drop count self.old.bytes.now }
        ensures moved { self.new.column ≡ self.old.column + count }
    {
        let column = self.column;
        let (text, after) = self.bytes.split_at(count);
        self.bytes = after;
        self.column += count;
        Field { text, column }
    }

    /// Passes one byte of the class; the error is the column where it is wanted.
    fn pass(&mut self, class: Class) -> Result<(), usize>
        ensures { MatchResult result (λ _. Passed class self.old self.new) (λ c. Fails (one class) self.old c) }
    {
        match self.bytes {
            [byte, after @ ..] if class.admits(*byte) => {
                self.bytes = after;
                self.column += 1;
                Ok(())
            }
            _ => Err(self.column),
        }
    }

    /// A field of the kind; the error is the column of the first byte that it misses.
    fn field(&mut self, kind: Kind) -> Result<Field<'a>, usize>
        ensures { MatchResult result (λ f. Taken kind self.old f self.new) (λ c. Missed kind self.old c) }
    {
        let (class, least, most) = kind.shape();
        let count = run_length(self.bytes, class, most);
        if count < least {
            return Err(self.column + count);
        }
        Ok(self.take(count))
    }

    /// A space and a field, and nothing more.
    pub(crate) fn one_field(mut self, kind: Kind) -> Result<Field<'a>, usize>
        ensures { MatchResult result (λ f. Alone kind self.entry f) (λ c. wrong_in (one Space ∷ parts kind) self.entry ≡ Some c) }
    {
        self.pass(Class::Space)?;
        let only = self.field(kind)?;
        self.end()?;
        Ok(only)
    }

    /// A space and a field, twice, and nothing more.
    pub(crate) fn two_fields(mut self, kind: Kind) -> Result<(Field<'a>, Field<'a>), usize>
        ensures { MatchResult result (λ p. Both kind self.entry p.0 p.1) (λ c. wrong_in (one Space ∷ (parts kind ++ (one Space ∷ parts kind))) self.entry ≡ Some c) }
    {
        self.pass(Class::Space)?;
        let first = self.field(kind)?;
        self.pass(Class::Space)?;
        let second = self.field(kind)?;
        self.end()?;
        Ok((first, second))
    }

    /// Nothing is left.
    pub(crate) fn end(self) -> Result<(), usize>
        ensures { MatchResult result (λ _. length self.entry.bytes.now ≡ 0) (λ c. wrong_in [] self.entry ≡ Some c) }
    {
        if self.bytes.is_empty() {
            Ok(())
        } else {
            Err(self.column)
        }
    }
}
