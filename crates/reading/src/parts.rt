//! The three parts of a report: read one after the other, and then written.
ghost use Rattle.std.specs.Prelude.{◌≡◌, true, false, ◌++◌, MatchResult};
ghost use Rattle.std.specs.List.{flat_map};
ghost use Rattle.samples.specs.declared.signal.Signal.TheVariants.{Current, Voltage};
ghost use Rattle.rig.specs.Meaning.{get as gets, hears, next};
ghost use Rattle.rig.specs.declared.Refusal.TheVariants.{Silence};
ghost use Rattle.reading.specs.Report.{registers as all_registers, ring_told, words};
ghost use Rattle.reading.specs.Reading.{ring_read};

use crate::gets::registers;
use crate::rings::read_ring;
use registers::register::COUNT;
use report::{CURRENTS, REPORT_BYTES, VOLTAGES};
use rig::{Refusal, Rig};
use samples::ring::LENGTH;
use samples::signal::Signal;

/// What a reading has heard: the registers, and the samples of both rings, the oldest first.
#[derive(Drop)]
pub(crate) struct Parts {
    registers: [u8; COUNT],
    voltage: [u16; LENGTH],
    current: [u16; LENGTH],
}

/// The samples as sixteen bits each, the high byte first.
fn sample_bytes(samples: &[u16; LENGTH]) -> [[u8; 2]; LENGTH]
    ensures { flat_map (λ x. x) result ≡ words samples.now }
{
    samples.map(u16::to_be_bytes)
}

impl Parts {
    /// The gets and the blocks of a reading. A silence, which only its first get can meet, ends it.
    pub(crate) fn read<R: Rig>(rig: &mut R, address: u8) -> Result<Parts, Refusal>
        ensures { MatchResult result (λ parts. (parts.registers ≡ all_registers (R.Rig.meaning rig.old).part) × (parts.voltage ≡ ring_told (R.Rig.meaning rig.old).part Voltage) × (parts.current ≡ ring_told (R.Rig.meaning rig.old).part Current) × (hears (R.Rig.meaning rig.old) address ≡ true) × (R.Rig.meaning rig.new ≡ ring_read (ring_read (R.Rig.meaning rig.old) Voltage) Current)) (λ e. (e ≡ Silence) × (hears (R.Rig.meaning rig.old) address ≡ false) × (R.Rig.meaning rig.new ≡ next (R.Rig.meaning rig.old) (gets address 0))) }
    {
        let registers = registers(rig, address)?;
        let voltage = read_ring(rig, address, Signal::Voltage, &registers)?;
        let current = read_ring(rig, address, Signal::Current, &registers)?;
        Ok(Parts {
            registers,
            voltage,
            current,
        })
    }

    /// The registers, the voltage ring and the current ring, one after the other.
    pub(crate) fn write(&self, report: &mut [u8; REPORT_BYTES])
        ensures { report.new ≡ self.now.registers ++ (words self.now.voltage ++ words self.now.current) }
    {
        report[..VOLTAGES].copy_from_slice(&self.registers);
        report[VOLTAGES..CURRENTS].copy_from_slice(sample_bytes(&self.voltage).as_flattened());
        report[CURRENTS..].copy_from_slice(sample_bytes(&self.current).as_flattened());
    }
}
