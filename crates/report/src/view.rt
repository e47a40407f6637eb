//! The viewer: each question is answered from the bytes of the report, where they lie.
ghost use Rattle.std.specs.Prelude.{◌≡◌, ◌+◌, ◌*◌, ◌%◌, if◌then◌else◌, Some, None, ◌==◌, slice_index};
ghost use Rattle.registers.specs.Pins.{level_of};
ghost use Rattle.registers.specs.Questions.{ten_bits};
ghost use Rattle.report.specs.View.{pair_in, smallest_place, largest_place, latest_in, none_in, smallest_in, largest_in, register_in, setting_in, cause_in, on_in, pol_in, good_in, prot_in, resolution_in, ring_place, sample_in};

use crate::{CURRENTS, REPORT_BYTES, VOLTAGES};
use registers::bits::{
    CRITICAL, FAST, ON, OVERCURRENT, POL, POWER_GOOD, PROT, SLOW, WARNING, is_set,
};
use registers::causes::{Cause, Compare, Trip};
use registers::pins::{Level, Strap};
use registers::{bits, register, table};
use samples::ring;
use samples::ring::Resolution;
use samples::signal::Signal;

/// What the extremes of a signal read where they cover no sample.
const NO_SMALLEST: u16 = 1023;

const NO_LARGEST: u16 = 0;

/// A report, seen through a borrow of its bytes.
// No model: its one field is what the clauses speak of.
#[derive(Clone, Copy)]
pub struct View<'a> {
    bytes: &'a [u8; REPORT_BYTES],
}

/// Where the samples of a signal begin.
fn ring_start(signal: Signal) -> usize
    ensures { result ≡ ring_place signal }
{
    match signal {
        Signal::Voltage => VOLTAGES,
        Signal::Current => CURRENTS,
    }
}

impl<'a> View<'a> {
    /// The view of a report.
    pub fn new(bytes: &'a [u8; REPORT_BYTES]) -> View<'a>
        ensures { result.bytes.now ≡ bytes.now }
    {
        View { bytes }
    }

    /// The byte at a place; a report is longer than any byte can count.
    fn byte(&self, place: u8) -> u8
        ensures { result ≡ slice_index self.now.bytes.now place }
    {
        self.bytes[place as usize]
    }

    /// The ten bits in two registers.
    fn pair(&self, high: u8, low: u8) -> u16
        ensures { result ≡ ten_bits (slice_index self.now.bytes.now high) (slice_index self.now.bytes.now low) }
    {
        bits::ten_bits(self.byte(high), self.byte(low))
    }

    /// What a register shows; none past the last one.
    pub fn register(&self, number: u8) -> Option<u8>
        ensures { result ≡ register_in self.now.bytes.now number }
    {
        ((number as usize) < register::COUNT).then_some(self.byte(number))
    }

    /// The byte of a setting; none where the register is no setting.
    #[tactic(auto, using(crate::proofs::Settings::keeping))]
    pub fn setting(&self, number: u8) -> Option<u8>
        ensures { result ≡ setting_in self.now.bytes.now number }
    {
        // every setting keeps a bit of what is written, and no other register does
        (table::writable(number) != 0).then_some(self.byte(number))
    }

    /// The signal's latest sample.
    pub fn latest(&self, signal: Signal) -> u16
        ensures { result ≡ latest_in self.now.bytes.now signal }
    {
        let (high, low) = match signal {
            Signal::Current => (register::ADC_CS_MSB, register::ADC_CS_LSB),
            Signal::Voltage => (register::ADC_MON_MSB, register::ADC_MON_LSB),
        };
        self.pair(high, low)
    }

    /// The signal's smallest sample; none where the extremes cover no sample.
    pub fn smallest(&self, signal: Signal) -> Option<u16>
        ensures { result ≡ smallest_in self.now.bytes.now signal }
    {
        self.extremes(signal).map(|(smallest, _)| smallest)
    }

    /// The signal's largest sample; none where the extremes cover no sample.
    pub fn largest(&self, signal: Signal) -> Option<u16>
        ensures { result ≡ largest_in self.now.bytes.now signal }
    {
        self.extremes(signal).map(|(_, largest)| largest)
    }

    /// The signal's smallest and largest sample. One alone does not tell: a sample can be 1023, and it can be 0.
    fn extremes(&self, signal: Signal) -> Option<(u16, u16)>
        ensures { result ≡ (if none_in self.now.bytes.now signal then None else Some (pair_in self.now.bytes.now (smallest_place signal), pair_in self.now.bytes.now (largest_place signal))) }
    {
        let (smallest, largest) = match signal {
            Signal::Current => (
                self.pair(register::MIN_CS_MSB, register::MIN_CS_LSB),
                self.pair(register::MAX_CS_MSB, register::MAX_CS_LSB),
            ),
            Signal::Voltage => (
                self.pair(register::MIN_MON_MSB, register::MIN_MON_LSB),
                self.pair(register::MAX_MON_MSB, register::MAX_MON_LSB),
            ),
        };
        let some = smallest != NO_SMALLEST || largest != NO_LARGEST;
        some.then_some((smallest, largest))
    }

    /// The cause is logged.
    pub fn logged(&self, cause: Cause) -> bool
        ensures { result ≡ cause_in self.now.bytes.now cause }
    {
        let (register, weight) = match cause {
            Cause::Trip(Trip::Fast) => (register::STATUS0, FAST),
            Cause::Trip(Trip::Slow) => (register::STATUS0, SLOW),
            Cause::Compare(Compare::Uv1) => (register::FAULT0, WARNING),
            Cause::Compare(Compare::Uv2) => (register::FAULT0, CRITICAL),
            Cause::Compare(Compare::Ov1) => (register::FAULT1, WARNING),
            Cause::Compare(Compare::Ov2) => (register::FAULT1, CRITICAL),
            Cause::Compare(Compare::Oi) => (register::FAULT2, OVERCURRENT),
        };
        is_set(self.byte(register), weight)
    }

    /// The level of ON.
    pub fn on(&self) -> Level
        ensures { result ≡ level_of (on_in self.now.bytes.now) }
    {
        Level::from(is_set(self.byte(register::STATUS1), ON))
    }

    /// The level of POL.
    pub fn pol(&self) -> Level
        ensures { result ≡ level_of (pol_in self.now.bytes.now) }
    {
        Level::from(is_set(self.byte(register::STATUS3), POL))
    }

    /// The level of PROT; none where its bits name none.
    pub fn prot(&self) -> Option<Strap>
        ensures { result ≡ prot_in self.now.bytes.now }
    {
        match self.byte(register::STATUS1) / PROT {
            0b00 => Some(Strap::Low),
            0b01 => Some(Strap::High),
            0b10 => Some(Strap::Open),
            _ => None,
        }
    }

    /// Power is good.
    pub fn power_good(&self) -> bool
        ensures { result ≡ good_in self.now.bytes.now }
    {
        is_set(self.byte(register::STATUS3), POWER_GOOD)
    }

    /// How fine a block reads the signal's ring.
    pub fn resolution(&self, signal: Signal) -> Resolution
        ensures { result ≡ resolution_in self.now.bytes.now signal }
    {
        bits::resolution(self.byte(register::CBUFRD_HIBYONLY), signal)
    }

    /// A sample of the signal's ring, the oldest at place 0; none past the ring's last place.
    pub fn sample(&self, signal: Signal, place: usize) -> Option<u16>
        ensures { result ≡ sample_in self.now.bytes.now signal place }
    {
        if place >= ring::LENGTH {
            return None;
        }
        let start = ring_start(signal) + 2 * place;
        Some(u16::from_be_bytes([self.bytes[start], self.bytes[start + 1]]))
    }
}
