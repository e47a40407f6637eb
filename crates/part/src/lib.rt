//! The part itself: what it holds, what power-up leaves in it, what events make of it, and what it shows.
#![tactic(auto)]

ghost use Rattle.std.specs.Prelude.{◌≡◌};
ghost use Rattle.std.specs.Borrow.{sem};
ghost use Rattle.part.specs.Monitors.{monitored};
ghost use Rattle.part.specs.Model.{model, monitor as monitor_of};
ghost use Rattle.part.specs.Lending.{LendsMonitor};

mod channel;
pub mod events;
pub mod monitor;
mod power;
pub mod replay;
mod shown;
mod tick;

use monitor::Monitor;
use registers::causes::{Compares, Logs};
use registers::pins::{Level, Pins};
use registers::settings::Settings;
use samples::signal::Signal;
pub use tick::Samples;

/// A MAX5978: its pins, its settings, and what it has measured, logged and decided since power-up.
// No model: callers would see the value alone, and not, by the types of the fields, that all it shows are bytes.
#[derive(Drop)]
pub struct Part {
    pins: Pins,
    settings: Settings,
    current: Monitor,
    voltage: Monitor,
    logs: Logs,
    latched: bool,
    power_good: bool,
    /// How many ticks in a row the voltage has been within its critical limits with the channel on.
    good_count: u16,
    /// The compares that were made and positive at the previous tick.
    earlier: Compares,
}

impl Part {
    /// What is kept of a signal.
    fn monitor(&self, signal: Signal) -> &Monitor
        ensures { monitored result.now ≡ monitor_of signal (model self.now) }
    {
        match signal {
            Signal::Current => &self.current,
            Signal::Voltage => &self.voltage,
        }
    }

    fn monitor_mut(&mut self, signal: Signal) -> &mut Monitor
        ensures* writes_back { sem 𝓛 (LendsMonitor self.entry signal result) }
        ensures value { monitored result.now ≡ monitor_of signal (model self.old) }
    {
        match signal {
            Signal::Current => &mut self.current,
            Signal::Voltage => &mut self.voltage,
        }
    }
}

/// The output pins.
#[derive(Clone, Copy, PartialEq, Eq)]
pub struct Outputs {
    pub fault: Level,
    pub alert: Level,
    pub pg: Level,
}
