//! The levels of the two lines.

/// The levels that a master drives: `true` is high, and lets the line go.
// `bool`s, and no enum as the part's pins have: what two ends make of a line is their `&&`.
#[derive(Clone, Copy, PartialEq, Eq, Debug)]
pub struct Levels {
    pub scl: bool,
    pub sda: bool,
}

impl Levels {
    /// Both lines let go: a bus at rest.
    pub const REST: Levels = Levels {
        scl: true,
        sda: true,
    };
}
