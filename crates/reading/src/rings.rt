//! A ring, read out and put into the order in which its samples came.
ghost use Rattle.std.specs.Prelude.{◌≡◌, true, map, length, MatchResult, slice_index};
ghost use Rattle.std.specs.List.{range_with_len};
ghost use Rattle.registers.specs.Questions.{setting};
ghost use Rattle.rig.specs.Meaning.{hears};
ghost use Rattle.reading.specs.Report.{ring_told};
ghost use Rattle.reading.specs.Reading.{ring_read};
ghost use Rattle.reading.specs.Readouts.{told_at};

use registers::register::COUNT;
use registers::{bits, register};
use rig::{LONGEST_BLOCK, Refusal, Rig, base_of};
use samples::place;
use samples::ring::{LENGTH, Resolution};
use samples::signal::Signal;
use std::array;

/// The sample in a readout that is `place` after the oldest, which comes last there.
fn sample(readout: &[u8; LONGEST_BLOCK], resolution: Resolution, place: usize) -> u16
    ensures { result ≡ told_at resolution readout.now place }
{
    let k = place::advance(place, LENGTH - 1, LENGTH);
    match resolution {
        Resolution::Short => u16::from(readout[k]) * 4,
        Resolution::Full => u16::from(readout[2 * k]) * 4 + u16::from(readout[2 * k + 1]),
    }
}

/// All samples of a readout, the oldest first.
fn oldest_first(readout: &[u8; LONGEST_BLOCK], resolution: Resolution) -> [u16; LENGTH]
    ensures { result ≡ map (told_at resolution readout.now) (range_with_len 0 50) }
{
    array::from_fn(|place| sample(readout, resolution, place))
}

/// The samples of a ring, the oldest first, as its resolution bit has them told. The part has just answered, so it
/// answers this too.
pub(crate) fn read_ring<R: Rig>(
    rig: &mut R,
    address: u8,
    signal: Signal,
    registers: &[u8; COUNT],
) -> Result<[u16; LENGTH], Refusal>
    requires answers { hears (R.Rig.meaning rig.old) address ≡ true }
    requires bits { slice_index registers.now 0x3F ≡ setting (R.Rig.meaning rig.old).part.settings 0x3F }
    ensures { MatchResult result (λ samples. (samples ≡ ring_told (R.Rig.meaning rig.old).part signal) × (R.Rig.meaning rig.new ≡ ring_read (R.Rig.meaning rig.old) signal)) (λ _. ⊥) }
{
    let mut readout = [0; LONGEST_BLOCK];
    let resolution = bits::resolution(registers[register::CBUFRD_HIBYONLY as usize], signal);
    let bytes = resolution.ring_bytes();
    rig.block(address, base_of(signal), &mut readout[0..bytes])?;
    Ok(oldest_first(&readout, resolution))
}
