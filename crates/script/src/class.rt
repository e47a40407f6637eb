//! Classes of bytes: what may stand at one place of a line.
ghost use Rattle.std.specs.Prelude.{◌≡◌};
ghost use Rattle.script.specs.Grammar.{admits};

#[derive(Clone, Copy, PartialEq, Eq, Debug)]
pub enum Class {
    Space,
    Bit,
    Digit,
    /// A hexadecimal digit; the letters are capitals.
    Hex,
}

impl Class {
    /// Whether a byte is of the class.
    pub fn admits(self, byte: u8) -> bool
        ensures { result ≡ admits self byte }
    {
        match self {
            Class::Space => byte == b' ',
            Class::Bit => matches!(byte, b'0' | b'1'),
            Class::Digit => byte.is_ascii_digit(),
            Class::Hex => matches!(byte, b'0'..=b'9' | b'A'..=b'F'),
        }
    }
}
