//! A rig that is lent is a rig, so that layers and readers can borrow one.
//! Seven calls written out: no impl is made by a macro of our own, a rule of the project.
use crate::{Refusal, Rig};
use part::Outputs;
use part::events::Pin;
use registers::causes::Trip;
use registers::pins::Level;

impl<R: Rig> Rig for &mut R {
    ghost meaning = { λ r. R.Rig.meaning r.now };

    fn tick(&mut self, current: u16, voltage: u16) -> Result<(), Refusal> {
        (**self).tick(current, voltage)
    }

    fn pin(&mut self, pin: Pin, level: Level) {
        (**self).pin(pin, level)
    }

    fn trip(&mut self, trip: Trip) {
        (**self).trip(trip)
    }

    fn outputs(&self) -> Outputs {
        (**self).outputs()
    }

    fn put(&mut self, address: u8, register: u8, byte: u8) -> Result<(), Refusal> {
        (**self).put(address, register, byte)
    }

    fn get(&mut self, address: u8, register: u8) -> Result<u8, Refusal> {
        (**self).get(address, register)
    }

    fn block(&mut self, address: u8, base: u8, out: &mut [u8]) -> Result<(), Refusal> {
        (**self).block(address, base, out)
    }
}
