//! Reports: the layout of their 270 bytes, and a viewer that reads them in place.
#![tactic(auto)]

ghost use Rattle.std.specs.Prelude.{◌≡◌, length, MatchResult, ◌≢◌};

pub mod view;

use registers::register;
use samples::ring;
use samples::signal::Signal;
pub use view::View;

/// How many bytes a report has: a byte for each register, then two for each sample of either ring.
pub const REPORT_BYTES: usize = 270;

/// Where the voltage samples begin, right after the registers.
pub const VOLTAGES: usize = register::COUNT;

/// Where the current samples begin, right after those.
pub const CURRENTS: usize = VOLTAGES + 2 * ring::LENGTH;

/// Both signals, in the order in which a report has their samples.
pub const SIGNALS: [Signal; 2] = [Signal::Voltage, Signal::Current];

/// The bytes are no report.
#[derive(Clone, Copy, PartialEq, Eq, Debug)]
pub struct WrongSize;

impl WrongSize {
    /// The number by which the refusal is known, after those of a rig.
    pub fn number(self) -> u8
        ensures { result ≡ 5 }
    {
        5
    }
}

/// The bytes as a report, which they are where their number is a report's.
// A call of its own, ahead of the viewer's making, which then can't refuse: a rule of the project.
pub fn measured(bytes: &[u8]) -> Result<&[u8; REPORT_BYTES], WrongSize>
    ensures { MatchResult result (λ whole. (whole.now ≡ bytes.now) × (length bytes.now ≡ 270)) (λ _. (length bytes.now ≢ 270)) }
{
    bytes.as_array().ok_or(WrongSize)
}
