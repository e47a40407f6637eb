//! What a part logs: trips of the breaker and compares of the samples with the thresholds.
ghost use Rattle.std.specs.Prelude.{◌≡◌};
ghost use Rattle.registers.specs.Causes.{holds, nothing, no_compare, trip_byte, under_byte, over_byte, current_byte, tripped, alerted};

use crate::bits::{CRITICAL, FAST, OVERCURRENT, SLOW, WARNING, bit};

/// A trip of the breaker.
#[derive(Clone, Copy, PartialEq, Eq)]
pub enum Trip {
    Fast,
    Slow,
}

/// A compare of a sample with a threshold: undervoltage and overvoltage, warning and critical, and overcurrent.
#[derive(Clone, Copy, PartialEq, Eq)]
pub enum Compare {
    Uv1,
    Uv2,
    Ov1,
    Ov2,
    Oi,
}

/// What a part may have logged.
#[derive(Clone, Copy, PartialEq, Eq)]
pub enum Cause {
    Trip(Trip),
    Compare(Compare),
}

/// One flag for each compare.
#[derive(Clone, Copy, Default)]
pub struct Compares {
    pub uv1: bool,
    pub uv2: bool,
    pub ov1: bool,
    pub ov2: bool,
    pub oi: bool,
}

/// One flag for each cause: logged and not cleared since.
#[derive(Clone, Copy, Default)]
pub struct Logs {
    pub fast: bool,
    pub slow: bool,
    pub compares: Compares,
}

impl Compares {
    /// No compare.
    pub fn none() -> Compares
        ensures { result ≡ no_compare }
    {
        Compares::default()
    }

    /// The flag of one compare.
    pub fn get(&self, compare: Compare) -> bool
        ensures { result ≡ holds compare self.now }
    {
        match compare {
            Compare::Uv1 => self.uv1,
            Compare::Uv2 => self.uv2,
            Compare::Ov1 => self.ov1,
            Compare::Ov2 => self.ov2,
            Compare::Oi => self.oi,
        }
    }
}

impl Logs {
    /// Nothing logged.
    pub fn none() -> Logs
        ensures { result ≡ nothing }
    {
        Logs::default()
    }

    /// The byte of the register that logs trips.
    // A method for each of the four registers: they differ in the flags that they show, which a parameter would only name again.
    pub fn trips(&self) -> u8
        ensures { result ≡ trip_byte self.now }
    {
        bit(self.slow, SLOW) + bit(self.fast, FAST)
    }

    /// The byte of the register that logs undervoltage.
    pub fn undervoltage(&self) -> u8
        ensures { result ≡ under_byte self.now }
    {
        bit(self.compares.uv2, CRITICAL) + bit(self.compares.uv1, WARNING)
    }

    /// The byte of the register that logs overvoltage.
    pub fn overvoltage(&self) -> u8
        ensures { result ≡ over_byte self.now }
    {
        bit(self.compares.ov2, CRITICAL) + bit(self.compares.ov1, WARNING)
    }

    /// The byte of the register that logs overcurrent.
    pub fn overcurrent(&self) -> u8
        ensures { result ≡ current_byte self.now }
    {
        bit(self.compares.oi, OVERCURRENT)
    }

    /// A trip is logged.
    pub fn fault(&self) -> bool
        ensures { result ≡ tripped self.now }
    {
        self.trips() != 0
    }

    /// Anything is logged.
    pub fn alert(&self) -> bool
        ensures { result ≡ alerted self.now }
    {
        self.fault()
            || self.undervoltage() != 0
            || self.overvoltage() != 0
            || self.overcurrent() != 0
    }
}
