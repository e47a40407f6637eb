//! The pins that a part is made from: two-level inputs and three-level straps.
ghost use Rattle.std.specs.Prelude.{◌≡◌, Some};
ghost use Rattle.registers.specs.Pins.{high, level_of, level_text, strap_text, bay};

use std::fmt;

/// A two-level pin.
#[derive(Clone, Copy, PartialEq, Eq, Debug)]
pub enum Level {
    Low,
    High,
}

impl Level {
    /// The level is high.
    pub fn is_high(self) -> bool
        ensures { result ≡ high self }
    {
        matches!(self, Level::High)
    }
}

// By hand, since `from_gives` says what it makes: proofs go by it wherever a level is made of a flag.
impl From<bool> for Level {
    ghost from_gives = { λ flag level. level ≡ level_of flag };

    /// High where the flag is set.
    fn from(flag: bool) -> Level {
        if flag { Level::High } else { Level::Low }
    }
}

impl fmt::Display for Level {
    ghost output = { λ level. Some (level_text level) };

    fn fmt<W: fmt::Write>(&self, f: &mut fmt::Formatter<W>) -> fmt::Result {
        match self {
            Level::Low => f.write_str("low"),
            Level::High => f.write_str("high"),
        }
    }
}

/// A three-level pin: tied low, tied high or left open.
#[derive(Clone, Copy, PartialEq, Eq)]
pub enum Strap {
    Low,
    High,
    Open,
}

impl fmt::Display for Strap {
    ghost output = { λ strap. Some (strap_text strap) };

    fn fmt<W: fmt::Write>(&self, f: &mut fmt::Formatter<W>) -> fmt::Result {
        match self {
            Strap::Low => f.write_str("low"),
            Strap::High => f.write_str("high"),
            Strap::Open => f.write_str("open"),
        }
    }
}

/// The pins at power-up. Of these only ON and POL change later.
#[derive(Clone, Copy)]
pub struct Pins {
    pub on: Level,
    pub hwen: Level,
    pub pol: Level,
    pub prot: Strap,
    pub irng: Strap,
    pub a1: Strap,
    pub a0: Strap,
}

impl Pins {
    /// The pins of the payload bay's part: enabled by them, and at address 0x3A.
    pub fn payload_bay() -> Pins
        ensures { result ≡ bay }
    {
        Pins {
            on: Level::High,
            hwen: Level::High,
            pol: Level::Low,
            prot: Strap::Low,
            irng: Strap::Open,
            a1: Strap::Low,
            a0: Strap::Low,
        }
    }
}
