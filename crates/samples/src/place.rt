//! Places in a ring of any length: which one follows, and which one stands some steps on.
//! Every ring, of samples or of anything else, takes its places from here.
ghost use Rattle.std.specs.Prelude.{◌≡◌};
ghost use Rattle.samples.specs.Places.{following, onward};

/// The place after `place` in a ring of `length` places: the first one follows the last.
pub fn next(place: usize, length: usize) -> usize
    ensures { result ≡ following place length }
{
    if place < length && length - place > 1 {
        place + 1
    } else {
        0
    }
}

/// The place `steps` on from `place`, round the ring as often as that takes; 0 where the ring has no place.
// No `Option`: the call can't fail, and every caller, whose ring has places, would have to unwrap it.
pub fn advance(place: usize, steps: usize, length: usize) -> usize
    ensures { result ≡ onward place steps length }
{
    if length == 0 {
        return 0;
    }
    let from = place % length;
    let ahead = steps % length;
    let left = length - from;
    if ahead < left {
        from + ahead
    } else {
        ahead - left
    }
}
