//! Two rigs compared by their reports.
ghost use Rattle.std.specs.Prelude.{◌≡◌, length, is_ok, IfOk, Decides, MatchResult};
ghost use Rattle.reading.specs.Report.{report};
ghost use Rattle.reading.specs.Compare.{both_sized, both_finish, compare_fault, first_next, second_next, first_buffer, second_buffer, BothFinish, TellsApart};

use crate::{ReadingFault, read};
use report::REPORT_BYTES;
use rig::Rig;

/// The same bytes.
fn same(left: &[u8; REPORT_BYTES], right: &[u8; REPORT_BYTES]) -> bool
    ensures { Decides result (left.now ≡ right.now) }
{
    left == right
}

/// Reads both rigs, the left one first, and tells whether the two reports are the same.
// Six parameters and no struct for either side: of two borrows in a struct each clause would have to say whose they are.
pub fn compare<L: Rig, R: Rig>(
    left: &mut L,
    left_address: u8,
    left_report: &mut [u8],
    right: &mut R,
    right_address: u8,
    right_report: &mut [u8],
) -> Result<bool, ReadingFault>
    ensures finishes { BothFinish (L.Rig.meaning left.old) left_address (length left_report.old) (R.Rig.meaning right.old) right_address (length right_report.old) (is_ok result) }
    ensures tells { IfOk result (TellsApart (L.Rig.meaning left.old) (R.Rig.meaning right.old)) }
    ensures answers { MatchResult result (λ same. Decides same (report (L.Rig.meaning left.old).part ≡ report (R.Rig.meaning right.old).part)) (λ e. e ≡ compare_fault (length left_report.old) (length right_report.old)) }
    ensures finished { is_ok result ≡ both_finish (L.Rig.meaning left.old) left_address (length left_report.old) (R.Rig.meaning right.old) right_address (length right_report.old) }
    ensures left_after { L.Rig.meaning left.new ≡ first_next (L.Rig.meaning left.old) left_address (length left_report.old) (length right_report.old) }
    ensures right_after { R.Rig.meaning right.new ≡ second_next (L.Rig.meaning left.old) left_address (length left_report.old) (R.Rig.meaning right.old) right_address (length right_report.old) }
    ensures left_written { left_report.new ≡ first_buffer (L.Rig.meaning left.old) left_address left_report.old (length right_report.old) }
    ensures right_written { right_report.new ≡ second_buffer (L.Rig.meaning left.old) left_address (length left_report.old) (R.Rig.meaning right.old) right_address right_report.old }
{
    let left_report = left_report.as_mut_array().ok_or(ReadingFault::Size)?;
    let right_report = right_report.as_mut_array().ok_or(ReadingFault::Size)?;
    read(left, left_address, left_report)?;
    read(right, right_address, right_report)?;
    Ok(same(left_report, right_report))
}
