//! Bits of the registers: the weight of each, a flag as a bit, a bit as a flag, and the ten bits of a pair of registers.
ghost use Rattle.std.specs.Prelude.{◌≡◌, ◌<◌, ◌≤◌};
ghost use Rattle.registers.specs.Causes.{weight};
ghost use Rattle.registers.specs.Questions.{bit as bit_of, run_weight, peak_weight, resolution_of, ten_bits};

use samples::ring::Resolution;
use samples::signal::Signal;

/// A fast trip, in STATUS0.
pub const FAST: u8 = 0x01;
/// A slow trip.
pub const SLOW: u8 = 0x10;
/// A warning, in FAULT0 and FAULT1.
pub const WARNING: u8 = 0x01;
/// A critical compare.
pub const CRITICAL: u8 = 0x10;
/// Overcurrent, in FAULT2.
pub const OVERCURRENT: u8 = 0x01;
/// The level of ON, in STATUS1.
pub const ON: u8 = 0x01;
/// The lower of the two bits of PROT.
pub const PROT: u8 = 0x40;
/// Power is good, in STATUS3.
pub const POWER_GOOD: u8 = 0x01;
/// ALERT is asserted.
pub const ALERT: u8 = 0x10;
/// The level of POL.
pub const POL: u8 = 0x20;
/// The enable that only a write sets, in CHXEN.
pub const EN1: u8 = 0x01;
/// The enable that HWEN sets at power-up.
pub const EN2: u8 = 0x02;

/// The bit where the flag is set, else 0.
pub fn bit(flag: bool, bit: u8) -> u8
    ensures value { result ≡ weight flag bit }
    ensures bound { result ≤ bit }
{
    if flag { bit } else { 0 }
}

/// The bit of this weight is set; no bit has the weight 0.
pub fn is_set(byte: u8, weight: u8) -> bool
    ensures { result ≡ bit_of weight byte }
{
    weight != 0 && byte / weight % 2 == 1
}

/// The signal's bit among the run bits and among the resolution bits.
// Not one function with `peak_bit`: that the orders differ is what the two say.
pub fn run_bit(signal: Signal) -> u8
    ensures value { result ≡ run_weight signal }
    ensures bound { 0 < result }
{
    match signal {
        Signal::Current => 0b10,
        Signal::Voltage => 0b01,
    }
}

/// The signal's bit among the reset bits and among the hold bits: the other way round.
pub fn peak_bit(signal: Signal) -> u8
    ensures value { result ≡ peak_weight signal }
    ensures bound { 0 < result }
{
    match signal {
        Signal::Current => 0b01,
        Signal::Voltage => 0b10,
    }
}

/// How fine the signal's ring is read out, by the byte of the resolution bits.
pub fn resolution(byte: u8, signal: Signal) -> Resolution
    ensures { result ≡ resolution_of byte signal }
{
    if is_set(byte, run_bit(signal)) {
        Resolution::Short
    } else {
        Resolution::Full
    }
}

/// The ten bits of a pair of registers: the high eight, and the low two bits of the second byte.
pub fn ten_bits(high: u8, low: u8) -> u16
    ensures value { result ≡ ten_bits high low }
    ensures bound { result < 1024 }
{
    u16::from(high) * 4 + u16::from(low) % 4
}
