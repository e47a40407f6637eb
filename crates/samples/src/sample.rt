//! A sample of the converter: ten bits.
ghost use Rattle.std.specs.Prelude.{◌≡◌, ◌/◌, ◌%◌, ◌<◌, ◌≤◌, MatchOption};

/// A ten-bit sample: below 1024 by its type.
#[derive(Clone, Copy, PartialEq, Eq, PartialOrd, Ord)]
pub struct Sample {
    value: u16,
    ghost ten_bits: { value < 1024 },
}

impl Sample {
    /// The sample of this value; none above full scale.
    // No `TryFrom`: there is one way to fail, which `None` says.
    pub fn new(value: u16) -> Option<Sample>
        ensures { MatchOption result (1024 ≤ value) (λ s. (s.value ≡ value) × (value < 1024)) }
    {
        (value < 1024).then(
            ||
                requires { value < 1024 }
            { Sample { value } },
        )
    }

    /// The least sample.
    // Two functions and no constants: a constant is checked against the type's bound only where it is passed on.
    pub fn zero() -> Sample
        ensures { result.value ≡ 0 }
    {
        Sample { value: 0 }
    }

    /// The greatest sample.
    pub fn full_scale() -> Sample
        ensures { result.value ≡ 1023 }
    {
        Sample { value: 1023 }
    }

    /// The sample as a number.
    pub fn value(self) -> u16
        ensures { result ≡ self.value }
    {
        self.value
    }

    /// Its high eight bits.
    pub fn high(self) -> u8
        ensures { result ≡ self.value / 4 }
    {
        (self.value / 4) as u8
    }

    /// Its low two bits.
    pub fn low(self) -> u8
        ensures { result ≡ self.value % 4 }
    {
        (self.value % 4) as u8
    }
}
