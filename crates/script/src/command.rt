//! The commands of a script, with the values of their fields.
use registers::pins::Level;

#[derive(Clone, Copy, PartialEq, Eq, Debug)]
pub enum Command {
    /// A pair of samples.
    Tick { current: u16, voltage: u16 },
    /// The level of the ON pin.
    On(Level),
    /// The level of the POL pin.
    Pol(Level),
    /// A trip of the fast comparator.
    Fast,
    /// A trip of the slow comparator.
    Slow,
    /// A byte for a register.
    Put { register: u8, byte: u8 },
    /// A question for a register's byte.
    Get(u8),
    /// A reading of the whole part.
    Read,
}
