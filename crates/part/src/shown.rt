//! What the part shows: its registers, and the output pins FAULT, ALERT and PG.
ghost use Rattle.std.specs.Prelude.{◌≡◌, ◌≤◌};
ghost use Rattle.part.specs.Model.{model};
ghost use Rattle.part.specs.Shown.{prot_bits, input_byte, status_byte, byte_of, register as register_of, outputs as outputs_of};

use crate::{Outputs, Part};
use registers::bits::{ALERT, ON, POL, POWER_GOOD, PROT, bit};
use registers::pins::{Level, Strap};
use registers::register;

fn prot(strap: Strap) -> u8
    ensures value { result ≡ prot_bits strap }
    ensures bound { result ≤ 128 }
{
    match strap {
        Strap::Low => 0,
        Strap::High => PROT,
        Strap::Open => 2 * PROT,
    }
}

impl Part {
    /// The byte that a register shows; none past the last register.
    #[tactic(auto, unfolding(crate::specs::Shown::shown))]
    pub fn register(&self, number: u8) -> Option<u8>
        ensures { result ≡ register_of (model self.now) number }
    {
        ((number as usize) < register::COUNT).then(|| self.byte(number))
    }

    fn byte(&self, number: u8) -> u8
        ensures { result ≡ byte_of (model self.now) number }
    {
        match number {
            register::ADC_CS_MSB => self.current.latest.high(),
            register::ADC_CS_LSB => self.current.latest.low(),
            register::ADC_MON_MSB => self.voltage.latest.high(),
            register::ADC_MON_LSB => self.voltage.latest.low(),
            register::MIN_CS_MSB => self.current.extremes.smallest.high(),
            register::MIN_CS_LSB => self.current.extremes.smallest.low(),
            register::MAX_CS_MSB => self.current.extremes.largest.high(),
            register::MAX_CS_LSB => self.current.extremes.largest.low(),
            register::MIN_MON_MSB => self.voltage.extremes.smallest.high(),
            register::MIN_MON_LSB => self.voltage.extremes.smallest.low(),
            register::MAX_MON_MSB => self.voltage.extremes.largest.high(),
            register::MAX_MON_LSB => self.voltage.extremes.largest.low(),
            register::STATUS0 => self.logs.trips(),
            register::STATUS1 => self.inputs(),
            register::STATUS3 => self.status(),
            register::FAULT0 => self.logs.undervoltage(),
            register::FAULT1 => self.logs.overvoltage(),
            register::FAULT2 => self.logs.overcurrent(),
            _ => self.settings.byte(number),
        }
    }

    fn inputs(&self) -> u8
        ensures { result ≡ input_byte (model self.now) }
    {
        prot(self.pins.prot) + bit(self.pins.on.is_high(), ON)
    }

    fn status(&self) -> u8
        ensures { result ≡ status_byte (model self.now) }
    {
        bit(self.pins.pol.is_high(), POL)
            + bit(self.logs.alert(), ALERT)
            + bit(self.power_good, POWER_GOOD)
    }

    /// The levels of the output pins.
    #[tactic(auto, unfolding(crate::specs::Shown::outputs))]
    pub fn outputs(&self) -> Outputs
        ensures { result ≡ outputs_of (model self.now) }
    {
        let pg = if self.pins.pol.is_high() {
            self.power_good
        } else {
            !self.power_good
        };
        Outputs {
            fault: Level::from(!self.logs.fault()),
            alert: Level::from(!self.logs.alert()),
            pg: Level::from(pg),
        }
    }
}
