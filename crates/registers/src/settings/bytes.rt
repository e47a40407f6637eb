//! What the bytes of the settings say, and what a write makes of them.
ghost use Rattle.std.specs.Prelude.{◌≡◌, ◌+◌, ◌*◌, ◌%◌};
ghost use Rattle.registers.specs.Settings.{range_bits, enable_bits, first_bytes, written, ResetsWithin};
ghost use Rattle.registers.specs.Questions.{setting, runs, resolution, resets, holds, en1, en2, threshold, deglitches, stop_delay, good_delay};

use crate::bits::{EN1, EN2, bit, is_set, peak_bit, run_bit};
use crate::causes::Compare;
use crate::pins::{Level, Pins, Strap};
use crate::settings::Settings;
use crate::{bits, register, table};
use samples::ring::Resolution;
use samples::signal::Signal;

const RANGE_25_MV: u8 = 0b10;

const RANGE_50_MV: u8 = 0b01;

const RANGE_100_MV: u8 = 0b00;

const DEGLITCH_WARNING: u8 = 0b01;

const DEGLITCH_CRITICAL: u8 = 0b10;

/// A ring counts down from 50 at most.
const LONGEST_DELAY: u8 = 50;

/// The range bits that IRNG sets.
fn range_bits(irng: Strap) -> u8
    ensures { result ≡ range_bits irng }
{
    match irng {
        Strap::Low => RANGE_25_MV,
        Strap::High => RANGE_50_MV,
        Strap::Open => RANGE_100_MV,
    }
}

/// The enable bits that HWEN sets.
fn enable_bits(hwen: Level) -> u8
    ensures { result ≡ enable_bits hwen }
{
    bit(hwen.is_high(), EN2)
}

impl Settings {
    /// The settings at power-up.
    pub fn power_up(pins: &Pins) -> Settings
        ensures bytes { result.bytes ≡ first_bytes pins.now }
        ensures within { ResetsWithin }
    {
        let mut bytes = table::RESET;
        bytes[register::STATUS2 as usize] = range_bits(pins.irng);
        bytes[register::CHXEN as usize] = enable_bits(pins.hwen);
        Settings { bytes }
    }

    /// The byte of a register; 0 past the last one.
    #[tactic(auto, unfolding(crate::specs::Questions::setting))]
    pub fn byte(&self, register: u8) -> u8
        ensures { result ≡ setting self.now.bytes register }
    {
        table::entry(&self.bytes, register)
    }

    /// A write: the register takes the bits that it keeps. Past the last register nothing changes.
    pub fn write(&mut self, register: u8, byte: u8)
        ensures { self.new.bytes ≡ written self.old.bytes register byte }
    {
        // no `get_mut`: of an array whose byte is changed through it the proof learns nothing
        let index = register as usize;
        if index < register::COUNT {
            self.bytes[index] = byte & table::writable(register);
        }
    }

    /// The signal's run bit: its ring stores.
    pub fn runs(&self, signal: Signal) -> bool
        ensures { result ≡ runs self.now.bytes signal }
    {
        is_set(self.byte(register::CBUF_CHX_STORE), run_bit(signal))
    }

    /// How fine the signal's ring is read out.
    // Beside the viewer's, which reads the same byte off a report: what both do with it is one function.
    pub fn resolution(&self, signal: Signal) -> Resolution
        ensures { result ≡ resolution self.now.bytes signal }
    {
        bits::resolution(self.byte(register::CBUFRD_HIBYONLY), signal)
    }

    /// The signal's reset bit: its extremes stay reset.
    // A question for each bit, here and below, as the part asks them: one with a register and a weight would ask for both.
    pub fn resets(&self, signal: Signal) -> bool
        ensures { result ≡ resets self.now.bytes signal }
    {
        is_set(self.byte(register::PEAK_LOG_RST), peak_bit(signal))
    }

    /// The signal's hold bit: its extremes stay as they are.
    pub fn holds(&self, signal: Signal) -> bool
        ensures { result ≡ holds self.now.bytes signal }
    {
        is_set(self.byte(register::PEAK_LOG_HOLD), peak_bit(signal))
    }

    /// The enable bit EN1.
    pub fn en1(&self) -> bool
        ensures { result ≡ en1 self.now.bytes }
    {
        is_set(self.byte(register::CHXEN), EN1)
    }

    /// The enable bit EN2.
    pub fn en2(&self) -> bool
        ensures { result ≡ en2 self.now.bytes }
    {
        is_set(self.byte(register::CHXEN), EN2)
    }

    /// The threshold of a compare.
    pub fn threshold(&self, compare: Compare) -> u16
        ensures { result ≡ threshold self.now.bytes compare }
    {
        let (high, low) = match compare {
            Compare::Uv1 => (register::UV1TH_MSB, register::UV1TH_LSB),
            Compare::Uv2 => (register::UV2TH_MSB, register::UV2TH_LSB),
            Compare::Ov1 => (register::OV1THR_MSB, register::OV1THR_LSB),
            Compare::Ov2 => (register::OV2THR_MSB, register::OV2THR_LSB),
            Compare::Oi => (register::OITHR_MSB, register::OITHR_LSB),
        };
        bits::ten_bits(self.byte(high), self.byte(low))
    }

    /// The deglitch bit of a compare: it acts only at its second positive tick in a row.
    pub fn deglitches(&self, compare: Compare) -> bool
        ensures { result ≡ deglitches self.now.bytes compare }
    {
        let (register, weight) = match compare {
            Compare::Uv1 => (register::DGL_UV, DEGLITCH_WARNING),
            Compare::Uv2 => (register::DGL_UV, DEGLITCH_CRITICAL),
            Compare::Ov1 => (register::DGL_OV, DEGLITCH_WARNING),
            Compare::Ov2 => (register::DGL_OV, DEGLITCH_CRITICAL),
            Compare::Oi => (register::DGL_I, DEGLITCH_WARNING),
        };
        is_set(self.byte(register), weight)
    }

    /// How many ticks a ring goes on after the channel has turned off.
    pub fn stop_delay(&self) -> u8
        ensures { result ≡ stop_delay self.now.bytes }
    {
        let delay = self.byte(register::CBUF_DLY_STOP);
        delay.min(LONGEST_DELAY)
    }

    /// How many good ticks in a row make power-good.
    pub fn good_delay(&self) -> u16
        ensures { result ≡ good_delay self.now.bytes }
    {
        match self.byte(register::PGDLY) % 4 {
            0 => 500,
            1 => 1000,
            2 => 2000,
            _ => 4000,
        }
    }
}
