//! Patience: a layer over any rig that tries again after a silence.
ghost use Rattle.std.specs.Prelude.{◌≡◌, ℕ, ◌+◌, ◌/◌, List};
ghost use Rattle.rig.specs.Patience.{eased, Waits};
ghost use Rattle.rig.specs.Meaning.{Call, Answer};
ghost use Rattle.rig.specs.Tries.{Made, Makes};

use crate::{Refusal, Rig};
use part::Outputs;
use part::events::Pin;
use registers::causes::Trip;
use registers::pins::Level;

/// The rig below, where a call that met silence is tried again, up to `patience` times.
#[derive(Drop)]
pub struct Patience<R> {
    below: R,
    patience: u8,
}

impl<R: Rig> Patience<R> {
    /// Patience over a rig; patience 0 is as if there were none.
    pub fn new(below: R, patience: u8) -> Patience<R>
        ensures meaning { eased (R.Rig.meaning result.below) result.patience ≡ eased (R.Rig.meaning below) patience }
        ensures none { patience ≡ 0 → eased (R.Rig.meaning result.below) result.patience ≡ R.Rig.meaning below }
        ensures waits { Waits (eased (R.Rig.meaning result.below) result.patience) ((R.Rig.meaning below).owed / (patience + 1)) }
    {
        Patience { below, patience }
    }

    /// Makes a call on the bus of the rig below, and makes it again after a silence, up to `patience` times. A call
    /// with a buffer finds it beside the rig, so that the contract can say what the last try left there.
    fn again<T: Drop, F: Fn(&mut R, &mut [u8]) -> Result<T, Refusal>>(
        &mut self,
        out: &mut [u8],
        call: F,
    ) -> Result<T, Refusal>
        requires { F.IsAlwaysCallable call }
        ensures { (c : Call) (good : T → List ℕ → Answer) → Makes R.Rig.meaning (F.post call) out.old c good → Made c good (eased (R.Rig.meaning self.old.below) self.old.patience) out.old result (eased (R.Rig.meaning self.new.below) self.new.patience) out.new }
    {
        for _ in 0..self.patience {
            let answer = call(&mut self.below, out);
            if !matches!(answer, Err(Refusal::Silence)) {
                return answer;
            }
        }
        call(&mut self.below, out)
    }
}

impl<R: Rig> Rig for Patience<R> {
    ghost meaning = { λ s. eased (R.Rig.meaning s.below) s.patience };

    // four calls that no bus carries are handed on, as a lent rig hands on all seven
    fn tick(&mut self, current: u16, voltage: u16) -> Result<(), Refusal> {
        self.below.tick(current, voltage)
    }

    fn pin(&mut self, pin: Pin, level: Level) {
        self.below.pin(pin, level)
    }

    fn trip(&mut self, trip: Trip) {
        self.below.trip(trip)
    }

    fn outputs(&self) -> Outputs {
        self.below.outputs()
    }

    fn put(&mut self, address: u8, register: u8, byte: u8) -> Result<(), Refusal> {
        self.again(&mut [], |rig, _| rig.put(address, register, byte))
    }

    fn get(&mut self, address: u8, register: u8) -> Result<u8, Refusal> {
        self.again(&mut [], |rig, _| rig.get(address, register))
    }

    fn block(&mut self, address: u8, base: u8, out: &mut [u8]) -> Result<(), Refusal> {
        self.again(out, |rig, out| rig.block(address, base, out))
    }
}
