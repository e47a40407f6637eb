//! Power-up: a part is made from its pins.
ghost use Rattle.std.specs.Prelude.{◌≡◌};
ghost use Rattle.part.specs.Model.{model, powered, address as address_by};
ghost use Rattle.part.specs.Shown.{PoweredUp};

use crate::Part;
use crate::monitor::Monitor;
use registers::causes::{Compares, Logs};
use registers::pins::Pins;
use registers::settings::Settings;
use registers::straps;

impl Part {
    /// A part as power-up leaves it.
    pub fn power_up(pins: Pins) -> Part
        ensures whole { model result ≡ powered pins }
        ensures registers { PoweredUp (model result) pins }
    {
        Part {
            pins,
            settings: Settings::power_up(&pins),
            current: Monitor::new(),
            voltage: Monitor::new(),
            logs: Logs::none(),
            latched: false,
            power_good: false,
            good_count: 0,
            earlier: Compares::none(),
        }
    }

    /// The seven-bit address that the part answers to on its bus.
    pub fn address(&self) -> u8
        ensures { result ≡ address_by (model self.now) }
    {
        straps::address(self.pins.a1, self.pins.a0)
    }
}
