//! Events from outside: a pin moves, the breaker trips, a register is written, a ring is read out.
ghost use Rattle.std.specs.Prelude.{◌≡◌, length};
ghost use Rattle.samples.specs.History.{byte_at, readout};
ghost use Rattle.registers.specs.Questions.{resolution as resolution_of};
ghost use Rattle.part.specs.Model.{model, monitor, keeping};
ghost use Rattle.part.specs.Events.{step, pin as pins, trip as trips, write as writes, block as blocks, tripped, woken_by, overwritten};

use crate::Part;
use registers::causes::Trip;
use registers::pins::Level;
use registers::register;
use samples::signal::Signal;

/// The input pins that may change after power-up.
#[derive(Clone, Copy, PartialEq, Eq)]
pub enum Pin {
    On,
    Pol,
}

impl Part {
    /// A pin goes to a level.
    #[tactic(auto, unfolding(crate::specs::Events::step))]
    pub fn pin(&mut self, pin: Pin, level: Level)
        ensures { model self.new ≡ step (model self.old) (pins pin level) }
    {
        self.event(|part| match pin {
            Pin::On => part.pins.on = level,
            Pin::Pol => part.pins.pol = level,
        });
    }

    /// The breaker trips. With the channel off this does nothing.
    #[tactic(auto, unfolding(crate::specs::Events::step))]
    pub fn trip(&mut self, trip: Trip)
        ensures { model self.new ≡ step (model self.old) (trips trip) }
    {
        self.event(|part| part.latch(trip));
    }

    fn latch(&mut self, trip: Trip)
        ensures { model self.new ≡ tripped (model self.old) trip }
    {
        if self.channel() {
            self.latched = true;
            match trip {
                Trip::Fast => self.logs.fast = true,
                Trip::Slow => self.logs.slow = true,
            }
        }
    }

    /// A byte is written to a register. Past the last register, and at one that ignores writes, nothing changes.
    #[tactic(auto, unfolding(crate::specs::Events::step))]
    pub fn write(&mut self, number: u8, byte: u8)
        ensures { model self.new ≡ step (model self.old) (writes number byte) }
    {
        self.event(|part| part.overwrite(number, byte));
    }

    fn overwrite(&mut self, number: u8, byte: u8)
        ensures { model self.new ≡ overwritten (model self.old) number byte }
    {
        self.settings.write(number, byte);
        match number {
            register::FAULT0 => {
                self.logs.compares.uv1 = false;
                self.logs.compares.uv2 = false;
            }
            register::FAULT1 => {
                self.logs.compares.ov1 = false;
                self.logs.compares.ov2 = false;
            }
            register::FAULT2 => self.logs.compares.oi = false,
            register::CBUF_CHX_STORE => {
                self.restart(Signal::Current);
                self.restart(Signal::Voltage);
            }
            _ => {}
        }
    }

    /// The run bit of a signal is written: at 1 it makes a stopped ring run.
    fn restart(&mut self, signal: Signal)
        ensures { model self.new ≡ keeping (model self.old) signal (woken_by (model self.old).settings signal (monitor signal (model self.old))) }
    {
        if self.settings.runs(signal) {
            self.monitor_mut(signal).wake();
        }
    }

    /// Byte `k` of the readout of a signal's ring; nothing changes.
    pub fn block_byte(&self, signal: Signal, k: usize) -> u8
        ensures { result ≡ byte_at (resolution_of (model self.now).settings signal) (monitor signal (model self.now)).ring k }
    {
        let resolution = self.settings.resolution(signal);
        self.monitor(signal).ring.byte(resolution, k)
    }

    /// The ring of a signal is read out into the buffer, as fine as its resolution bit asks, and stops.
    pub fn block(&mut self, signal: Signal, out: &mut [u8])
        ensures after { model self.new ≡ step (model self.old) (blocks signal) }
        ensures bytes { out.new ≡ readout (resolution_of (model self.old).settings signal) (monitor signal (model self.old)).ring (length out.old) }
    {
        let resolution = self.settings.resolution(signal);
        let monitor = self.monitor_mut(signal);
        monitor.ring.read_out(resolution, out);
        monitor.stop();
    }
}
