//! The direct rig: a part with nothing between it and the caller.
ghost use Rattle.std.specs.Prelude.{◌≡◌, ◌-◌, if◌then◌else◌, nat_eq};
ghost use Rattle.part.specs.Model.{model, powered, address as address_of};
ghost use Rattle.rig.specs.Direct.{direct_meaning};
ghost use Rattle.rig.specs.Meaning.{done, bus_answer};
ghost use Rattle.rig.specs.Refusals.{told};

use crate::{Refusal, Rig, check_block, check_register, samples_of};
use part::events::Pin;
use part::{Outputs, Part};
use registers::causes::Trip;
use registers::pins::{Level, Pins};

/// A part, and how many silences it owes: while it boots it acknowledges nothing.
#[derive(Drop)]
pub struct Direct {
    part: Part,
    owed: u8,
}

impl Direct {
    /// A part that powers up with these pins and keeps silent for the hold-off.
    // Pins and hold-off, here and at the wire, and no struct: it would be made for this one call.
    pub fn new(pins: Pins, hold_off: u8) -> Direct
        ensures { direct_meaning result ≡ record { part = powered pins; owed = hold_off } }
    {
        Direct {
            part: Part::power_up(pins),
            owed: hold_off,
        }
    }

    /// The part acknowledges its address, unless it owes a silence.
    fn acknowledge(&mut self, address: u8) -> Result<(), Refusal>
        ensures answers { told (λ _. done) result ≡ bus_answer (direct_meaning self.old) address done }
        ensures part { model self.new.part ≡ model self.old.part }
        ensures owed { self.new.owed ≡ (if nat_eq address (address_of (model self.old.part)) then self.old.owed - 1 else self.old.owed) }
    {
        if address != self.part.address() {
            return Err(Refusal::Silence);
        }
        if self.owed > 0 {
            self.owed -= 1;
            return Err(Refusal::Silence);
        }
        Ok(())
    }
}

// Four calls read as the wire rig's do: each hands its call to what it holds, and they hold different things.
impl Rig for Direct {
    ghost meaning = { direct_meaning };

    fn tick(&mut self, current: u16, voltage: u16) -> Result<(), Refusal> {
        let samples = samples_of(current, voltage)?;
        self.part.tick(samples);
        Ok(())
    }

    fn pin(&mut self, pin: Pin, level: Level) {
        self.part.pin(pin, level);
    }

    fn trip(&mut self, trip: Trip) {
        self.part.trip(trip);
    }

    fn outputs(&self) -> Outputs {
        self.part.outputs()
    }

    fn put(&mut self, address: u8, register: u8, byte: u8) -> Result<(), Refusal> {
        check_register(register)?;
        self.acknowledge(address)?;
        self.part.write(register, byte);
        Ok(())
    }

    fn get(&mut self, address: u8, register: u8) -> Result<u8, Refusal> {
        let byte = self.part.register(register).ok_or(Refusal::Register)?;
        self.acknowledge(address)?;
        Ok(byte)
    }

    fn block(&mut self, address: u8, base: u8, out: &mut [u8]) -> Result<(), Refusal> {
        let signal = check_block(base, out.len())?;
        self.acknowledge(address)?;
        self.part.block(signal, out);
        Ok(())
    }
}
