//! The wire rig: a master and a receiver, with nothing but levels between them.
ghost use Rattle.std.specs.Prelude.{◌≡◌, true};
ghost use Rattle.wire.specs.Rests.{rests as at_rest};
ghost use Rattle.wire.specs.Bytes.{ShowsBytes};

mod calls;

use crate::receiver::Receiver;

/// A receiver that is at rest between calls, and whose part shows bytes, by its type.
#[derive(Drop)]
pub struct Wire {
    receiver: Receiver,
    ghost rests: { at_rest receiver ≡ true },
    ghost bytes: { ShowsBytes receiver.behind.part },
}
