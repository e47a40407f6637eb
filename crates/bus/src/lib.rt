//! An I2C bus of one master: the levels that it drives, the frames that it sends, and a recorder of both lines.
#![tactic(auto)]

ghost use Rattle.std.specs.Prelude.{Bool};
ghost use Rattle.bus.specs.declared.levels.Levels.{Levels};

mod lent;
pub mod levels;
pub mod recorder;
pub mod sender;

use levels::Levels;

/// The two lines, SCL and SDA, as a master reaches them.
pub trait Bus {
    /// From one state, at some levels, with the SDA heard, to the next state.
    ghost drives: { Self → Levels → Bool → Self → Type 0 };

    /// Drives a pair of levels, and hears SDA.
    fn drive(&mut self, levels: Levels) -> bool
        ensures { drives self.old levels result self.new };
}
