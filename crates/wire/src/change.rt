//! What happens on SCL and SDA between one pair of levels and the next.
ghost use Rattle.std.specs.Prelude.{◌≡◌};
ghost use Rattle.wire.specs.Changes.{changed};

use bus::levels::Levels;

/// A change that a receiver acts on.
#[derive(Clone, Copy, PartialEq, Eq, Debug)]
pub enum Change {
    /// SDA falls with SCL high.
    Start,
    /// SDA rises with SCL high.
    Stop,
    /// SCL rises; SDA is read.
    Rise(bool),
    /// SCL falls; the receiver's pull may change.
    Fall,
}

impl Change {
    /// The change, if any, while the receiver drives SDA to `drives`: SDA on the bus is low if either end pulls.
    pub fn between(was: Levels, is: Levels, drives: bool) -> Option<Change>
        ensures { result ≡ changed was is drives }
    {
        let before = drives && was.sda;
        let after = drives && is.sda;
        match (was.scl, is.scl) {
            (false, true) => Some(Change::Rise(after)),
            (true, false) => Some(Change::Fall),
            (false, false) => None,
            (true, true) => match (before, after) {
                (true, false) => Some(Change::Start),
                (false, true) => Some(Change::Stop),
                _ => None,
            },
        }
    }
}
