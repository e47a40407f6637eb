//! Readings: the report on the part of any rig, made from what the bus hands over.
#![tactic(auto)]

ghost use Rattle.std.specs.Prelude.{◌≡◌, length, is_ok, OnOk};
ghost use Rattle.reading.specs.Laws.{Finishes, ShowsPoints, Tells, GoesOn};
ghost use Rattle.reading.specs.Reading.{fault_number, read_result, read_next, read_buffer};
ghost use Rattle.reading.specs.declared.ReadingFault.TheVariants.{Refused};

mod comparing;
mod gets;
mod parts;
mod rings;

pub use comparing::compare;
pub use gets::registers;
use parts::Parts;
use report::WrongSize;
use rig::{Refusal, Rig};

/// Why there is no report.
#[derive(Clone, Copy, Debug)]
pub enum ReadingFault {
    /// The buffer does not have the bytes of a report.
    Size,
    /// The rig refused a call.
    Refused(Refusal),
}

impl ReadingFault {
    /// The number by which the fault is known: a rig's refusal keeps its own.
    pub fn number(self) -> u8
        ensures { result ≡ fault_number self }
    {
        match self {
            ReadingFault::Size => WrongSize.number(),
            ReadingFault::Refused(refusal) => refusal.number(),
        }
    }
}

// By hand, since `from_gives` says what it makes: proofs go by it at each `?`.
impl From<Refusal> for ReadingFault {
    ghost from_gives = { λ e f. f ≡ Refused e };

    fn from(e: Refusal) -> ReadingFault {
        ReadingFault::Refused(e)
    }
}

/// Writes the report on the part at an address. A refused reading leaves the buffer as it was.
// The address is a parameter, as in the rig's own calls: a struct with it would add a clause to each that it is kept.
pub fn read<R: Rig>(rig: &mut R, address: u8, report: &mut [u8]) -> Result<(), ReadingFault>
    ensures answers { result ≡ read_result (R.Rig.meaning rig.old) address (length report.old) }
    ensures after { R.Rig.meaning rig.new ≡ read_next (R.Rig.meaning rig.old) address (length report.old) }
    ensures written { report.new ≡ read_buffer (R.Rig.meaning rig.old) address report.old }
    ensures finishes { Finishes (R.Rig.meaning rig.old) address (length report.old) (is_ok result) }
    ensures shows { OnOk result (ShowsPoints (R.Rig.meaning rig.old) report.new) }
    ensures tells { OnOk result (Tells (R.Rig.meaning rig.old) report.new) }
    ensures goes_on { GoesOn (R.Rig.meaning rig.old) address (length report.old) (R.Rig.meaning rig.new) }
{
    let report = report.as_mut_array().ok_or(ReadingFault::Size)?;
    let parts = Parts::read(rig, address)?;
    parts.write(report);
    Ok(())
}
