//! Rigs: a part with a way to reach it. Every rig answers the same seven calls by the same meaning.
#![tactic(auto)]

ghost use Rattle.std.specs.Prelude.{◌≡◌, ℕ, ◌<◌, ◌≤◌, true, ◌&&◌, length, is_ok, if◌then◌else◌, Some, None, MatchResult, nat_le};
ghost use Rattle.rig.specs.Meaning.{Meaning, Answer, tick as ticks, pin as pins, trip as trips, outputs as output_levels, put as puts, get as gets, block as blocks, done, byte, bytes, levels, next, answer, tick_answer, refused, filled, ring_base, ring_at, base_of, sized, BlockRefused};
ghost use Rattle.rig.specs.Refusals.{told, number_of};
ghost use Rattle.rig.specs.declared.Refusal.TheVariants.{Register};

mod direct;
mod lent;
mod patience;

pub use direct::Direct;
use part::events::Pin;
use part::{Outputs, Samples};
pub use patience::Patience;
use registers::causes::Trip;
use registers::pins::Level;
use registers::register;
use samples::sample::Sample;
use samples::signal::Signal;

/// Why a rig refuses a call. The tests run in the order of the cases.
#[derive(Clone, Copy, PartialEq, Eq, Debug)]
pub enum Refusal {
    /// A sample above full scale; the current is tested first.
    Sample(Signal),
    /// A block of no bytes, or of more than a hundred.
    Length,
    /// No such register, or no such ring.
    Register,
    /// Nobody acknowledged the address.
    Silence,
}

impl Refusal {
    /// The number by which a refusal is known.
    // No `From<Refusal> for u8`, here and at each fault above: the number is a refusal's name, and not its value.
    pub fn number(self) -> u8
        ensures { result ≡ number_of self }
    {
        match self {
            Refusal::Sample(_) => 1,
            Refusal::Length => 2,
            Refusal::Register => 3,
            Refusal::Silence => 4,
        }
    }
}

/// The ring that a block reads at a base.
pub fn ring_at(base: u8) -> Option<Signal>
    ensures { result ≡ (if ring_base base then Some (ring_at base) else None) }
{
    match base {
        register::CBUF_BA_V => Some(Signal::Voltage),
        register::CBUF_BA_I => Some(Signal::Current),
        _ => None,
    }
}

/// The base at which a block reads the ring of a signal.
pub fn base_of(signal: Signal) -> u8
    ensures { result ≡ base_of signal }
{
    match signal {
        Signal::Current => register::CBUF_BA_I,
        Signal::Voltage => register::CBUF_BA_V,
    }
}

/// The samples of a tick, or its refusal: the current is tested first.
pub fn samples_of(current: u16, voltage: u16) -> Result<Samples, Refusal>
    ensures samples { MatchResult result (λ s. (s.current.value ≡ current) × (s.voltage.value ≡ voltage)) (λ e. refused e ≡ tick_answer current voltage) }
    ensures taken { is_ok result ≡ (nat_le current 1023 && nat_le voltage 1023) }
{
    let current = Sample::new(current).ok_or(Refusal::Sample(Signal::Current))?;
    let voltage = Sample::new(voltage).ok_or(Refusal::Sample(Signal::Voltage))?;
    Ok(Samples { current, voltage })
}

/// The longest block.
pub const LONGEST_BLOCK: usize = 100;

/// The register of a put or a get is one of the part's.
pub fn check_register(number: u8) -> Result<(), Refusal>
    ensures { MatchResult result (λ _. number < 70) (λ e. (e ≡ Register) × (70 ≤ number)) }
{
    if number as usize >= register::COUNT {
        return Err(Refusal::Register);
    }
    Ok(())
}

/// The ring that a block of this length reads at a base; the length is tested first.
pub fn check_block(base: u8, length: usize) -> Result<Signal, Refusal>
    ensures { MatchResult result (λ s. (sized length ≡ true) × (ring_base base ≡ true) × (s ≡ ring_at base)) (λ e. (m : Meaning) (a : ℕ) → BlockRefused m a base length e) }
{
    if length == 0 || length > LONGEST_BLOCK {
        return Err(Refusal::Length);
    }
    ring_at(base).ok_or(Refusal::Register)
}

// The parameters of the calls stand as the rules name them: a struct of them would be made for one call.
/// A part and a way to reach it. What a call answers and what it leaves is the meaning's, for every rig alike.
pub trait Rig {
    ghost meaning: { Self → Meaning };

    /// A tick brings a current and a voltage sample.
    fn tick(&mut self, current: u16, voltage: u16) -> Result<(), Refusal>
        ensures answers { told (λ _. done) result ≡ answer (meaning self.old) (ticks current voltage) }
        ensures after { meaning self.new ≡ next (meaning self.old) (ticks current voltage) };

    /// An input pin goes to a level.
    fn pin(&mut self, pin: Pin, level: Level)
        ensures { meaning self.new ≡ next (meaning self.old) (pins pin level) };

    /// The breaker trips.
    fn trip(&mut self, trip: Trip)
        ensures { meaning self.new ≡ next (meaning self.old) (trips trip) };

    /// The levels of the output pins; nothing changes.
    fn outputs(&self) -> Outputs
        ensures { levels result ≡ answer (meaning self.now) output_levels };

    /// Writes a byte into a register of the part at an address.
    fn put(&mut self, address: u8, register: u8, byte: u8) -> Result<(), Refusal>
        ensures answers { told (λ _. done) result ≡ answer (meaning self.old) (puts address register byte) }
        ensures after { meaning self.new ≡ next (meaning self.old) (puts address register byte) };

    /// Reads a register of the part at an address.
    fn get(&mut self, address: u8, register: u8) -> Result<u8, Refusal>
        ensures answers { told byte result ≡ answer (meaning self.old) (gets address register) }
        ensures after { meaning self.new ≡ next (meaning self.old) (gets address register) };

    /// Fills the buffer from a ring of the part at an address. A refused call leaves the buffer as it was.
    fn block(&mut self, address: u8, base: u8, out: &mut [u8]) -> Result<(), Refusal>
        ensures answers { told (λ _. bytes out.new) result ≡ answer (meaning self.old) (blocks address base (length out.old)) }
        ensures after { meaning self.new ≡ next (meaning self.old) (blocks address base (length out.old)) }
        ensures filled { out.new ≡ filled (meaning self.old) address base out.old };
}
