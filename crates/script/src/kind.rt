//! Kinds of fields: what a field's text may be.
ghost use Rattle.std.specs.Prelude.{◌≡◌};
ghost use Rattle.script.specs.Steps.{class_of, least_of, most_of};

use crate::class::Class;

/// The most digits that a number may have.
pub const MOST_DIGITS: usize = 4;

#[derive(Clone, Copy, PartialEq, Eq, Debug)]
pub enum Kind {
    Bit,
    /// One to four decimal digits.
    Number,
    /// Two hexadecimal digits.
    Byte,
}

impl Kind {
    /// The class of the text's bytes, and the least and the most of them.
    pub(crate) fn shape(self) -> (Class, usize, usize)
        ensures class { result.0 ≡ class_of self }
        ensures least { result.1 ≡ least_of self }
        ensures most { result.2 ≡ most_of self }
    {
        match self {
            Kind::Bit => (Class::Bit, 1, 1),
            Kind::Number => (Class::Digit, 1, MOST_DIGITS),
            Kind::Byte => (Class::Hex, 2, 2),
        }
    }
}
