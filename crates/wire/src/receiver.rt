//! The receiver: the part's end of the bus.
ghost use Rattle.std.specs.Prelude.{◌≡◌, ◌+◌, ◌*◌, ◌%◌, ◌<◌, true, nat_lt};
ghost use Rattle.part.specs.Model.{powered};
ghost use Rattle.wire.specs.Receive.{completed, shifted, resting, addressed, pointed, written, to_send, next_pointer, driving, opened, begun, risen, fallen, reacted, received, happened};
ghost use Rattle.wire.specs.Laws.{received_all, OnlyCalls};
ghost use Rattle.wire.specs.Rests.{Receives};
ghost use Rattle.wire.specs.Bytes.{ShowsBytes};
ghost use Rattle.part.specs.Events.{tick as ticks, pin as pins, trip as trips};
ghost use Rattle.part.specs.Shown.{outputs as outputs_of};

use crate::change::Change;
use bus::Bus;
use bus::levels::Levels;
use part::events::Pin;
use part::{Outputs, Part, Samples};
use registers::causes::Trip;
use registers::pins::{Level, Pins};
use registers::register;
use rig::ring_at;
use samples::place;
use std::marker::Model;

/// Bits of a byte, the most significant first: those that are in, or those still to go out at the top.
#[derive(Clone, Copy, PartialEq, Eq, Debug)]
pub struct Shift {
    bits: u8,
    count: u8,
}

/// What follows an acknowledge.
#[derive(Clone, Copy, PartialEq, Eq, Debug)]
pub enum Next {
    Register,
    Data,
    Send,
}

/// What the receiver waits for.
#[derive(Clone, Copy, PartialEq, Eq, Debug)]
pub enum Phase {
    /// A START.
    Idle,
    /// The bits of an address byte.
    Address(Shift),
    /// The bits of a register byte.
    Register(Shift),
    /// The bits of a data byte.
    Data(Shift),
    /// SCL falling, to pull SDA and so acknowledge a byte.
    Acknowledge(Next),
    /// SCL falling, to end the acknowledge.
    Acknowledged(Next),
    /// SCL falling, to send the next bit.
    Send(Shift),
    /// The master's acknowledge of a byte that was sent.
    Sent,
}

/// A part and what the bus has told it so far.
#[derive(Drop)]
pub struct Receiver {
    levels: Levels,
    /// The SDA that the receiver drives: low while it pulls.
    drives: bool,
    phase: Phase,
    owed: u8,
    /// The register, or the ring base, that the next byte is for.
    pointer: u8,
    /// How many bytes this read has sent, round at a hundred.
    place: usize,
    part: Part,
}

impl Model for Receiver {
    ghost use Rattle.wire.specs.Lines.{Line};

    ghost Value = { Line };

    ghost use Rattle.wire.specs.Receive.{view as line};

    ghost view = { line };

    ghost use Rattle.std.specs.Prelude.{◌≤◌};

    // the pointer is at a register or at a ring base, and so always shows a byte
    ghost invariant = { λ r. r.pointer ≤ 0x47 };
}

impl Shift {
    const EMPTY: Shift = Shift { bits: 0, count: 0 };

    /// Takes a bit in. With the eighth the byte is whole, and the next one begins.
    fn take(&mut self, bit: bool) -> Option<u8>
        ensures byte { result ≡ completed self.old bit }
        ensures after { self.new ≡ shifted self.old bit }
    {
        let bits = (self.bits << 1) + u8::from(bit);
        if self.count < 7 {
            self.bits = bits;
            self.count += 1;
            None
        } else {
            *self = Shift::EMPTY;
            Some(bits)
        }
    }

    /// Gives the next bit out.
    fn give(&mut self) -> bool
        requires { self.old.count < 8 }
        ensures bit { result ≡ nat_lt 127 self.old.bits }
        ensures after { self.new ≡ record { bits = self.old.bits % 128 * 2; count = self.old.count + 1 } }
    {
        let bit = self.bits > 127;
        self.bits <<= 1;
        self.count += 1;
        bit
    }
}

/// The bytes after which a readout repeats, whatever its resolution.
const READOUT: usize = 100;

/// The pointer after a byte: on to the next register, from the last one to the first; it rests on a ring base.
fn after_byte(pointer: u8) -> u8
    ensures { result ≡ next_pointer pointer }
{
    match pointer {
        ..register::LED_STATE => pointer + 1,
        register::LED_STATE => 0,
        _ => pointer,
    }
}

impl Receiver {
    /// A part of its own that powers up with these pins, on a bus at rest, and owes nothing.
    pub fn power_up(pins: Pins) -> Receiver
        ensures rest { result ≡ resting (powered pins) 0 }
        ensures bytes { ShowsBytes result.behind.part }
    {
        Receiver::new(pins, 0)
    }

    /// A part that powers up with these pins and owes silences, on a bus at rest.
    pub fn new(pins: Pins, hold_off: u8) -> Receiver
        ensures rest { result ≡ resting (powered pins) hold_off }
        ensures bytes { ShowsBytes result.behind.part }
    {
        Receiver {
            levels: Levels::REST,
            drives: true,
            phase: Phase::Idle,
            owed: hold_off,
            pointer: 0,
            place: 0,
            part: Part::power_up(pins),
        }
    }

    /// The eighth bit of an address byte is in.
    fn address_byte(&mut self, byte: u8)
        ensures { self.new ≡ addressed self.old byte }
    {
        self.phase = Phase::Idle;
        if byte / 2 == self.part.address() {
            if self.owed > 0 {
                self.owed -= 1;
            } else if byte % 2 == 1 {
                self.open_read();
            } else {
                self.phase = Phase::Acknowledge(Next::Register);
            }
        }
    }

    /// A read begins: at a ring base it stops that ring.
    fn open_read(&mut self)
        ensures { self.new ≡ opened self.old }
    {
        if let Some(signal) = ring_at(self.pointer) {
            self.part.block(signal, &mut []);
        }
        self.place = 0;
        self.phase = Phase::Acknowledge(Next::Send);
    }

    /// The eighth bit of a register byte is in.
    fn register_byte(&mut self, byte: u8)
        ensures { self.new ≡ pointed self.old byte }
    {
        if byte <= register::CBUF_BA_I {
            self.pointer = byte;
            self.phase = Phase::Acknowledge(Next::Data);
        } else {
            self.phase = Phase::Idle;
        }
    }

    /// The eighth bit of a data byte is in: it counts.
    fn data_byte(&mut self, byte: u8)
        ensures { self.new ≡ written self.old byte }
    {
        if self.pointer <= register::LED_STATE {
            self.part.write(self.pointer, byte);
            self.pointer = after_byte(self.pointer);
            self.phase = Phase::Acknowledge(Next::Data);
        } else {
            self.phase = Phase::Idle;
        }
    }

    /// The byte that the pointer shows: a register, or a ring at its place.
    fn byte_to_send(&self) -> u8
        ensures { result ≡ to_send self.now.behind }
    {
        match ring_at(self.pointer) {
            Some(signal) => self.part.block_byte(signal, self.place),
            None => self.part.register(self.pointer).unwrap(),
        }
    }

    /// SDA is left to the master, and the receiver waits.
    fn release(&mut self, phase: Phase)
        ensures { self.new ≡ driving self.old true phase }
    {
        self.drives = true;
        self.phase = phase;
    }

    /// As SCL falls after an acknowledge: the next byte begins.
    fn begin(&mut self, next: Next)
        ensures { self.new ≡ begun self.old next }
    {
        match next {
            Next::Register => self.release(Phase::Register(Shift::EMPTY)),
            Next::Data => self.release(Phase::Data(Shift::EMPTY)),
            Next::Send => {
                let mut shift = Shift {
                    bits: self.byte_to_send(),
                    count: 0,
                };
                self.drives = shift.give();
                self.phase = Phase::Send(shift);
            }
        }
    }

    /// Takes one pair of levels, and answers the SDA that the receiver drives.
    // Inlined, with what is below, into a master's three pairs for a bit, each of which then knows the one before.
    #[inline(always)]
    pub fn receive(&mut self, levels: Levels) -> bool
        ensures after { self.new ≡ received self.old levels }
        ensures sda { result ≡ (received self.old levels).drives }
        ensures byte { to_send self.new.behind < 256 }
        ensures bytes { ShowsBytes self.new.behind.part }
    {
        self.react(Change::between(self.levels, levels, self.drives));
        self.levels = levels;
        self.drives
    }

    /// What a change comes to, by the phase that it meets.
    #[inline(always)]
    fn react(&mut self, change: Option<Change>)
        ensures { self.new ≡ reacted self.old change }
    {
        // One `match` on phase and change, a rule of the project.
        match (&mut self.phase, change) {
            (_, Some(Change::Start)) => self.release(Phase::Address(Shift::EMPTY)),
            (_, Some(Change::Stop)) => self.release(Phase::Idle),
            // Three arms: one for all would have to tell the phases apart again.
            (Phase::Address(shift), Some(Change::Rise(bit))) => {
                if let Some(byte) = shift.take(bit) {
                    self.address_byte(byte);
                }
            }
            (Phase::Register(shift), Some(Change::Rise(bit))) => {
                if let Some(byte) = shift.take(bit) {
                    self.register_byte(byte);
                }
            }
            (Phase::Data(shift), Some(Change::Rise(bit))) => {
                if let Some(byte) = shift.take(bit) {
                    self.data_byte(byte);
                }
            }
            (Phase::Sent, Some(Change::Rise(bit))) => {
                self.phase = if bit {
                    Phase::Idle
                } else {
                    Phase::Acknowledged(Next::Send)
                };
            }
            (Phase::Acknowledge(next), Some(Change::Fall)) => {
                self.drives = false;
                self.phase = Phase::Acknowledged(*next);
            }
            (Phase::Acknowledged(next), Some(Change::Fall)) => {
                let next = *next;
                self.begin(next);
            }
            (Phase::Send(shift), Some(Change::Fall)) if shift.count < 8 => {
                self.drives = shift.give();
                // With its eighth bit a byte counts as read.
                if shift.count == 8 {
                    self.pointer = after_byte(self.pointer);
                    self.place = place::next(self.place, READOUT);
                }
            }
            (Phase::Send(_), Some(Change::Fall)) => self.release(Phase::Sent),
            _ => {}
        }
    }

    /// Takes any list of pairs, one after another.
    pub fn receive_all(&mut self, levels: &[Levels])
        ensures after { self.new ≡ received_all self.old levels.now }
        ensures only { OnlyCalls self.old.behind.part self.new.behind.part }
        ensures bytes { ShowsBytes self.new.behind.part }
    {
        for pair in levels {
            self.receive(*pair);
        }
        // read for the proof alone: where no pair came, a part shows bytes by its type
        let _ = &self.part;
    }

    /// A tick of the part; the bus stays as it is.
    pub fn tick(&mut self, samples: Samples)
        ensures after { self.new ≡ happened self.old (ticks samples.current.value samples.voltage.value) }
        ensures bytes { ShowsBytes self.new.behind.part }
    {
        self.part.tick(samples);
    }

    /// An input pin of the part goes to a level.
    pub fn pin(&mut self, pin: Pin, level: Level)
        ensures after { self.new ≡ happened self.old (pins pin level) }
        ensures bytes { ShowsBytes self.new.behind.part }
    {
        self.part.pin(pin, level);
    }

    /// The breaker trips.
    pub fn trip(&mut self, trip: Trip)
        ensures after { self.new ≡ happened self.old (trips trip) }
        ensures bytes { ShowsBytes self.new.behind.part }
    {
        self.part.trip(trip);
    }

    /// For the proofs of a rig over it: all that the part shows are bytes.
    #[tactic(auto, using(crate::proofs::Byte::shows_bytes_by))]
    #[inline(always)]
    pub(crate) fn shows_bytes(&self)
        ensures { ShowsBytes self.now.behind.part }
    {
        let _ = &self.part;
    }

    /// The levels of the part's output pins.
    #[tactic(auto, using(crate::proofs::Byte::shows_bytes_by))]
    pub fn outputs(&self) -> Outputs
        ensures levels { result ≡ outputs_of self.now.behind.part }
        ensures bytes { ShowsBytes self.now.behind.part }
    {
        self.part.outputs()
    }
}

impl Bus for Receiver {
    ghost drives = { Receives };

    #[inline(always)]
    fn drive(&mut self, levels: Levels) -> bool {
        self.receive(levels)
    }
}
