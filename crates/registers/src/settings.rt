//! The settings: a byte for each register, as power-up and the writes since have left it.
ghost use Rattle.registers.specs.Held.{Held};

mod bytes;

use crate::register;

/// One byte for each register, with no bit that the register does not keep; a register that is no setting holds 0.
// No model: that the bytes keep within their masks is read off the type, which a model would hide.
#[derive(Drop)]
pub struct Settings {
    bytes: [u8; register::COUNT],
    ghost held: { Held bytes },
}
