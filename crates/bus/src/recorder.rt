//! A recorder: it stands between a sender and a bus, and keeps what was driven and heard, in order.
ghost use Rattle.std.specs.Prelude.{◌≡◌, false, not, []};
ghost use Rattle.bus.specs.Recording.{Records, KeepsRuns};

use crate::Bus;
use crate::levels::Levels;
use std::alloc::Global;

/// A pair of levels that was driven, with the SDA heard.
#[derive(Clone, Copy, PartialEq, Eq, Debug)]
pub struct Recorded {
    pub levels: Levels,
    pub sda: bool,
}

/// The bus below, with a record of its run. Where there is no memory for an entry, the bus goes on, and the record
/// stays the beginning of the run.
#[derive(Drop)]
pub struct Recorder<B> {
    bus: B,
    entries: Vec<Recorded>,
    // A flag beside the entries, and no enum round them: the entries stay when memory runs out.
    lost: bool,
}

impl<B: Bus> Recorder<B> {
    /// An empty record over a bus.
    pub fn new(bus: B, heap: Global) -> Recorder<B>
        ensures bus { result.bus ≡ bus }
        ensures empty { result.entries.items ≡ [] }
        ensures complete { result.lost ≡ false }
        ensures runs { KeepsRuns B.Bus.drives }
    {
        Recorder {
            bus,
            entries: Vec::new(heap),
            lost: false,
        }
    }
}

impl<B> Recorder<B> {
    /// What was driven and heard, in order; the whole run where the record is complete.
    pub fn record(&self) -> &[Recorded]
        ensures { result.now ≡ self.now.entries.items }
    {
        self.entries.as_slice()
    }

    /// Whether the record has the whole run.
    pub fn complete(&self) -> bool
        ensures { result ≡ not self.now.lost }
    {
        !self.lost
    }

    /// The bus, without its record.
    pub fn into_bus(self) -> B
        ensures { result ≡ self.bus }
    {
        let Recorder {
            bus,
            entries: _,
            lost: _,
        } = self;
        bus
    }
}

impl<B: Bus> Bus for Recorder<B> {
    ghost drives = { Records B.Bus.drives };

    fn drive(&mut self, levels: Levels) -> bool {
        let sda = self.bus.drive(levels);
        self.lost = self.lost || self.entries.push(Recorded { levels, sda }).is_err();
        sda
    }
}
