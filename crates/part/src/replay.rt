//! A run of events from power-up: what happened to a part, played again.
ghost use Rattle.std.specs.Prelude.{◌≡◌};
ghost use Rattle.part.specs.Model.{model};
ghost use Rattle.part.specs.Events.{step};
ghost use Rattle.part.specs.Runs.{ran, after, told, history, Laws};

use crate::events::Pin;
use crate::{Part, Samples};
use registers::causes::Trip;
use registers::pins::{Level, Pins};
use samples::signal::Signal;

/// Whatever changes a part.
#[derive(Clone, Copy)]
pub enum Event {
    Tick(Samples),
    Pin(Pin, Level),
    Trip(Trip),
    Write { number: u8, byte: u8 },
    Block(Signal),
}

impl Part {
    /// One event.
    pub fn apply(&mut self, event: Event)
        ensures { model self.new ≡ step (model self.old) (told event) }
    {
        match event {
            Event::Tick(samples) => self.tick(samples),
            Event::Pin(pin, level) => self.pin(pin, level),
            Event::Trip(trip) => self.trip(trip),
            Event::Write { number, byte } => self.write(number, byte),
            Event::Block(signal) => self.block(signal, &mut []),
        }
    }

    /// A run of events, in their order.
    pub fn run(&mut self, events: &[Event])
        ensures { model self.new ≡ ran (model self.old) (history events.now) }
    {
        for event in events {
            self.apply(*event);
        }
    }

    /// The part after a run of events from power-up.
    pub fn replay(pins: Pins, events: &[Event]) -> Part
        ensures whole { model result ≡ after pins (history events.now) }
        ensures laws { Laws pins (history events.now) (model result) }
    {
        let mut part = Part::power_up(pins);
        part.run(events);
        part
    }
}
