//! The master's side of I2C: frames from START to STOP, bit by bit, on any bus.
ghost use Rattle.std.specs.Prelude.{◌≡◌, ℕ, ◌<◌, ◌≤◌, true, length, is_ok, is_err, IfErr, MatchOption, Ok, Err, slice_index};
ghost use Rattle.bus.specs.Frames.{Driven, pair, start_frame, repeat_frame, stop_frame, heard_frame, byte_frame, taken_bits, taken_bytes, put_frame, read_frame, write_address, read_address};
ghost use Rattle.bus.specs.Between.{put_bytes, read_bytes};

use crate::Bus;
use crate::levels::Levels;

/// The highest address of seven bits.
const HIGHEST_ADDRESS: u8 = 0x7F;

/// Which byte of a `put` was not acknowledged.
// Two enums of faults, since one would have a case that a `put` never has, and one that a `read` never has.
#[derive(Clone, Copy, PartialEq, Eq, Debug)]
pub enum PutFault {
    /// The address with the write bit; also an address above 0x7F, which is never sent.
    Address,
    Register,
    Data,
}

/// Which byte of a `read` was not acknowledged.
#[derive(Clone, Copy, PartialEq, Eq, Debug)]
pub enum ReadFault {
    /// The address with the write bit; also an address above 0x7F, which is never sent.
    Address,
    Register,
    /// The address with the read bit, after the repeated START.
    Repeat,
}

/// An address of seven bits, which is sent ahead of a bit that asks to write or to read.
#[derive(Clone, Copy)]
struct Address {
    bits: u8,
    ghost seven: { bits < 128 },
}

impl Address {
    fn new(bits: u8) -> Option<Address>
        ensures { MatchOption result (128 ≤ bits) (λ a. (bits < 128) × (a.bits ≡ bits)) }
    {
        (bits <= HIGHEST_ADDRESS).then(
            ||
                requires { bits < 128 }
            { Address { bits } },
        )
    }

    fn to_write(self) -> u8
        ensures { result ≡ write_address self.bits }
    {
        self.bits * 2
    }

    fn to_read(self) -> u8
        ensures { result ≡ read_address self.bits }
    {
        self.bits * 2 + 1
    }
}

// Inlined, as `send_bit` is: bits are nearly all that a master sends.
#[inline(always)]
fn drive<B: Bus>(bus: &mut B, scl: bool, sda: bool) -> bool
    ensures { B.drives bus.old (pair scl sda) result bus.new }
{
    bus.drive(Levels { scl, sda })
}

/// START from rest: SDA falls while SCL is high.
fn start<B: Bus>(bus: &mut B)
    ensures { Driven B.drives bus.old start_frame bus.new }
{
    drive(bus, true, false);
}

/// Repeated START: SDA rises while SCL is low, and then falls while SCL is high.
fn start_again<B: Bus>(bus: &mut B)
    ensures { Driven B.drives bus.old repeat_frame bus.new }
{
    drive(bus, false, true);
    drive(bus, true, true);
    start(bus);
}

/// STOP: SDA falls while SCL is low, and then rises while SCL is high.
fn stop<B: Bus>(bus: &mut B)
    ensures { Driven B.drives bus.old stop_frame bus.new }
{
    drive(bus, false, false);
    drive(bus, true, false);
    drive(bus, true, true);
}

/// Sends a bit, and hears SDA while SCL is high.
#[inline(always)]
fn send_bit<B: Bus>(bus: &mut B, bit: bool) -> bool
    ensures { Driven B.drives bus.old (heard_frame bit result) bus.new }
{
    drive(bus, false, bit);
    let heard = drive(bus, true, bit);
    drive(bus, false, bit);
    heard
}

/// Sends a byte, the most significant bit first. It is acknowledged by SDA low in the ninth bit, or else the fault
/// is `missing`.
fn send_byte<B: Bus, E: Copy>(bus: &mut B, byte: u8, missing: E) -> Result<(), E>
    ensures run { Driven B.drives bus.old (byte_frame byte (is_ok result)) bus.new }
    ensures fault { IfErr result (λ e. e ≡ missing) }
{
    let mut left = byte;
    for _ in 0..8u8 {
        send_bit(bus, left > 127);
        left <<= 1;
    }
    if send_bit(bus, true) {
        Err(missing)
    } else {
        Ok(())
    }
}

/// Takes a byte, the most significant bit first, with SDA let go.
fn read_byte<B: Bus>(bus: &mut B) -> u8
    ensures { Driven B.drives bus.old (taken_bits result 8) bus.new }
{
    let mut byte = 0u8;
    for _ in 0..8u8 {
        let bit = send_bit(bus, true);
        byte = (byte << 1) | u8::from(bit);
    }
    byte
}

/// Takes a byte into each place. Each but the last is acknowledged: a missing acknowledge asks for no more.
fn read_all<B: Bus>(bus: &mut B, into: &mut [u8])
    ensures { Driven B.drives bus.old (taken_bytes into.new (length into.new)) bus.new }
{
    let Some((last, others)) = into.split_last_mut() else {
        return;
    };
    for place in others.iter_mut() {
        *place = read_byte(bus);
        send_bit(bus, false);
    }
    *last = read_byte(bus);
    send_bit(bus, true);
}

/// The bytes of a `put`, up to one that is not acknowledged.
// The parameters stay apart: a struct of them would be made for one call and taken apart in it.
#[tactic(auto, using(crate::proofs::Runs::then))]
fn send_put<B: Bus>(bus: &mut B, address: Address, register: u8, byte: u8) -> Result<(), PutFault>
    ensures { Driven B.drives bus.old (put_bytes address.bits register byte result) bus.new }
{
    send_byte(bus, address.to_write(), PutFault::Address)?;
    send_byte(bus, register, PutFault::Register)?;
    send_byte(bus, byte, PutFault::Data)
}

/// The bytes of a `read`, up to one that is not acknowledged.
#[tactic(auto, using(crate::proofs::Runs::then))]
fn send_read<B: Bus>(
    bus: &mut B,
    address: Address,
    register: u8,
    into: &mut [u8],
) -> Result<(), ReadFault>
    ensures run { Driven B.drives bus.old (read_bytes address.bits register into.new result) bus.new }
    ensures kept { is_err result ≡ true → into.new ≡ into.old }
{
    send_byte(bus, address.to_write(), ReadFault::Address)?;
    send_byte(bus, register, ReadFault::Register)?;
    start_again(bus);
    send_byte(bus, address.to_read(), ReadFault::Repeat)?;
    read_all(bus, into);
    Ok(())
}

/// Writes a byte into a register of the part at an address. A missing acknowledge is followed by STOP.
pub fn put<B: Bus>(bus: &mut B, address: u8, register: u8, byte: u8) -> Result<(), PutFault>
    ensures run { Driven B.drives bus.old (put_frame address register byte result) bus.new }
    ensures unsent { 128 ≤ address → result ≡ Err PutFault.Address }
{
    let target = Address::new(address).ok_or(PutFault::Address)?;
    start(bus);
    let sent = send_put(bus, target, register, byte);
    stop(bus);
    sent
}

/// Fills a buffer from a register of the part at an address. A missing acknowledge is followed by STOP, and leaves
/// the buffer as it was. An empty buffer is filled by doing nothing.
pub fn read<B: Bus>(
    bus: &mut B,
    address: u8,
    register: u8,
    into: &mut [u8],
) -> Result<(), ReadFault>
    ensures run { Driven B.drives bus.old (read_frame address register into.new result) bus.new }
    ensures unsent { 128 ≤ address → result ≡ Err ReadFault.Address }
    ensures bytes { (k : ℕ) → slice_index into.new k < 256 }
    ensures none { address < 128 → length into.old ≡ 0 → result ≡ Ok tt }
    ensures kept { is_err result ≡ true → into.new ≡ into.old }
{
    let target = Address::new(address).ok_or(ReadFault::Address)?;
    if into.is_empty() {
        return Ok(());
    }
    start(bus);
    let taken = send_read(bus, target, register, into);
    stop(bus);
    taken
}
