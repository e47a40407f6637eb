//! How the master and the receiver make a rig.
ghost use Rattle.std.specs.Prelude.{◌≡◌};
ghost use Rattle.part.specs.Model.{powered};
ghost use Rattle.wire.specs.Laws.{FramesAreCalls};
ghost use Rattle.wire.specs.Receivers.{FramesOfReceivers};
ghost use Rattle.wire.specs.Rests.{or_silence};
ghost use Rattle.wire.specs.Wired.{wire_meaning};

use crate::receiver::Receiver;
use crate::wire_rig::Wire;
use bus::sender;
use part::Outputs;
use part::events::Pin;
use registers::causes::Trip;
use registers::pins::{Level, Pins};
use rig::{Refusal, Rig, check_block, check_register, samples_of};

/// A missing acknowledge, of whichever byte, is silence.
// No `From`: the faults are the bus's and the refusal is the rig's, and an impl must name a type of its own crate.
fn acknowledged<F: Drop>(sent: Result<(), F>) -> Result<(), Refusal>
    ensures { result ≡ or_silence sent }
{
    sent.map_err(|_| Refusal::Silence)
}

impl Wire {
    /// A part that powers up with these pins and keeps silent for the hold-off, behind its bus.
    pub fn new(pins: Pins, hold_off: u8) -> Wire
        ensures meaning { wire_meaning result ≡ record { part = powered pins; owed = hold_off } }
        ensures frames { FramesAreCalls }
        ensures receivers { FramesOfReceivers }
    {
        Wire {
            receiver: Receiver::new(pins, hold_off),
        }
    }
}

impl Rig for Wire {
    ghost meaning = { wire_meaning };

    fn tick(&mut self, current: u16, voltage: u16) -> Result<(), Refusal> {
        let samples = samples_of(current, voltage)?;
        self.receiver.tick(samples);
        Ok(())
    }

    fn pin(&mut self, pin: Pin, level: Level) {
        self.receiver.pin(pin, level);
    }

    fn trip(&mut self, trip: Trip) {
        self.receiver.trip(trip);
    }

    fn outputs(&self) -> Outputs {
        self.receiver.outputs()
    }

    fn put(&mut self, address: u8, register: u8, byte: u8) -> Result<(), Refusal> {
        check_register(register)?;
        // silence is passed up by `?`, a rule of the project, here and in `block`
        let receiver = &mut self.receiver;
        let sent = sender::put(receiver, address, register, byte);
        receiver.shows_bytes();
        acknowledged(sent)?;
        Ok(())
    }

    fn get(&mut self, address: u8, register: u8) -> Result<u8, Refusal> {
        check_register(register)?;
        let mut byte = [0];
        let receiver = &mut self.receiver;
        let sent = sender::read(receiver, address, register, &mut byte);
        receiver.shows_bytes();
        acknowledged(sent)?;
        Ok(byte[0])
    }

    fn block(&mut self, address: u8, base: u8, out: &mut [u8]) -> Result<(), Refusal> {
        check_block(base, out.len())?;
        let receiver = &mut self.receiver;
        let sent = sender::read(receiver, address, base, out);
        receiver.shows_bytes();
        acknowledged(sent)?;
        Ok(())
    }
}
