//! The two signals that are sampled.
ghost use Rattle.std.specs.Prelude.{Some};
ghost use Rattle.samples.specs.Signals.{signal_text};

use std::fmt;

#[derive(Clone, Copy, PartialEq, Eq, Debug)]
pub enum Signal {
    Current,
    Voltage,
}

impl fmt::Display for Signal {
    ghost output = { λ signal. Some (signal_text signal) };

    fn fmt<W: fmt::Write>(&self, f: &mut fmt::Formatter<W>) -> fmt::Result {
        match self {
            Signal::Current => f.write_str("current"),
            Signal::Voltage => f.write_str("voltage"),
        }
    }
}
