//! What a ring is asked and told: stores, its content and the block readout.
ghost use Rattle.std.specs.Prelude.{◌≡◌, ℕ, ◌<◌, ◌++◌, map, length, replicate};
ghost use Rattle.samples.specs.History.{content, pushed, last_fifty, values, readout, byte_at, sample_at, ring_bytes};

use super::{LENGTH, Resolution, Ring};
use crate::place;
use crate::sample::Sample;
use std::array;

impl Ring {
    /// A ring of fifty zeros.
    pub fn new() -> Ring
        ensures { content result ≡ replicate 50 0 }
    {
        Ring {
            samples: [Sample::zero(); LENGTH],
            oldest: 0,
        }
    }

    /// Stores a sample in the place of the oldest.
    pub fn store(&mut self, sample: Sample)
        ensures { content self.new ≡ pushed (content self.old) sample.value }
    {
        self.samples[self.oldest] = sample;
        self.oldest = place::next(self.oldest, LENGTH);
    }

    /// A new ring after a run of stores.
    pub fn recorded(samples: &[Sample]) -> Ring
        ensures { content result ≡ last_fifty (replicate 50 0 ++ values samples.now) }
    {
        let mut ring = Ring::new();
        for sample in samples {
            ring.store(*sample);
        }
        ring
    }

    /// The content, the oldest sample first.
    pub fn oldest_first(&self) -> [Sample; LENGTH]
        ensures { values result ≡ content self.now }
    {
        array::from_fn(|k| self.samples[place::advance(self.oldest, k, LENGTH)])
    }

    /// The readout fills the slice: the next-to-oldest sample first, then onward, the oldest last; the fifty repeat.
    pub fn read_out(&self, resolution: Resolution, out: &mut [u8])
        ensures { out.new ≡ readout resolution (content self.now) (length out.old) }
    {
        for (k, byte) in out.iter_mut().enumerate() {
            *byte = self.byte(resolution, k);
        }
    }

    /// Byte `k` of the readout.
    pub fn byte(&self, resolution: Resolution, k: usize) -> u8
        ensures { result ≡ byte_at resolution (content self.now) k }
    {
        match resolution {
            Resolution::Short => self.in_readout(k).high(),
            Resolution::Full if k % 2 == 0 => self.in_readout(k / 2).high(),
            Resolution::Full => self.in_readout(k / 2).low(),
        }
    }

    /// Sample `k` in the order of the readout.
    fn in_readout(&self, k: usize) -> Sample
        ensures { result.value ≡ sample_at (content self.now) k }
    {
        let first = place::next(self.oldest, LENGTH);
        self.samples[place::advance(first, k, LENGTH)]
    }
}

impl Resolution {
    /// How many bytes the readout of a whole ring has.
    pub fn ring_bytes(self) -> usize
        ensures { result ≡ ring_bytes self }
    {
        match self {
            Resolution::Short => LENGTH,
            Resolution::Full => 2 * LENGTH,
        }
    }
}
