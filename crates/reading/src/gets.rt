//! The registers, read one by one.
ghost use Rattle.std.specs.Prelude.{◌≡◌, true, false, MatchResult};
ghost use Rattle.rig.specs.Meaning.{get as gets, hears, next};
ghost use Rattle.rig.specs.declared.Refusal.TheVariants.{Silence};
ghost use Rattle.reading.specs.Report.{registers as all_registers};

use registers::register::COUNT;
use rig::{Refusal, Rig};

/// All registers, in order. Only the first get can meet silence.
pub fn registers<R: Rig>(rig: &mut R, address: u8) -> Result<[u8; COUNT], Refusal>
    ensures { MatchResult result (λ bytes. (bytes ≡ all_registers (R.Rig.meaning rig.old).part) × (hears (R.Rig.meaning rig.old) address ≡ true) × (R.Rig.meaning rig.new ≡ R.Rig.meaning rig.old)) (λ e. (e ≡ Silence) × (hears (R.Rig.meaning rig.old) address ≡ false) × (R.Rig.meaning rig.new ≡ next (R.Rig.meaning rig.old) (gets address 0))) }
{
    let mut bytes = [0; COUNT];
    // no `try_from_fn`, whose clause says nothing of what the calls leave of the rig
    for (number, byte) in bytes.iter_mut().enumerate() {
        *byte = rig.get(address, number as u8)?;
    }
    Ok(bytes)
}
