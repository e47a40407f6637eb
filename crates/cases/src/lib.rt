//! The cases that are tried first on a bench, as one theorem about every part and rig: the clause `bench` of `ramp`.
#![tactic(auto)]

ghost use Rattle.std.specs.Prelude.{◌≡◌, ◌+◌, map};
ghost use Rattle.std.specs.List.{range_with_len};
ghost use Rattle.samples.specs.History.{values};
ghost use Rattle.cases.specs.Bench.{Bench};

use samples::sample::Sample;
use std::array;

/// The samples 1 to 51, one more than a ring holds.
// The cases need no code of their own, and a clause stands on a function.
pub fn ramp() -> [Sample; 51]
    ensures values { values result ≡ map (λ k. k + 1) (range_with_len 0 51) }
    ensures bench { Bench }
{
    array::from_fn(|k| Sample::new(k as u16 + 1).unwrap())
}
