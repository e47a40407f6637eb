//! The ring: fifty samples and the place of the oldest, which is the next to be written over.
ghost use Rattle.std.specs.Prelude.{◌<◌};

mod history;

use crate::sample::Sample;

/// How many samples a ring holds.
pub const LENGTH: usize = 50;

/// The last fifty samples, each below 1024 and the place of the oldest below fifty by its type.
// No model: a ring is copied, and its content does not give back which place is the oldest's.
#[derive(Clone, Copy)]
pub struct Ring {
    samples: [Sample; LENGTH],
    oldest: usize,
    ghost place: { oldest < 50 },
}

/// How fine a readout is: the high byte of each sample, or the high byte and then the low two bits.
#[derive(Clone, Copy, PartialEq, Eq)]
pub enum Resolution {
    Short,
    Full,
}
