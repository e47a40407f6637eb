//! A short tour of the library, printed stage by stage.
#![tactic(auto)]

mod compared;
mod flight;
mod names;
mod page;
mod print;
mod stop;

use bus::levels::Levels;
use cases::ramp;
use flight::Flight;
use part::replay::Event;
use part::{Part, Samples};
use registers::causes::Trip;
use registers::pins::Pins;
use registers::register;
use rig::{Direct, Patience};
use samples::ring::{Resolution, Ring};
use samples::sample::Sample;
use std::io;
use stop::Stop;
use wire::Wire;
use wire::receiver::Receiver;

/// The same story over a direct rig, over a wire rig, and over patience 2 on a wire rig that keeps silent seven times.
fn rigs(rt: &impl Print, address: u8) -> Result<(), Stop> {
    println!(rt; "Over a direct rig")?;
    Flight::new(Direct::new(Pins::payload_bay(), 0), address).tell(rt)?;
    println!(rt; "Over a wire rig")?;
    Flight::new(Wire::new(Pins::payload_bay(), 0), address).tell(rt)?;
    println!(rt; "Over patience 2 on a wire rig that owes seven silences")?;
    let mut patient = Flight::new(Patience::new(Wire::new(Pins::payload_bay(), 7), 2), address);
    patient.wait(rt)?;
    patient.tell(rt)
}

/// Levels that are no frame: a START, bits cut short by a STOP, and a clock with nobody addressed.
fn noise(rt: &impl Print) -> io::Result<()> {
    let pairs = [
        (true, false),
        (false, true),
        (true, true),
        (false, false),
        (true, false),
        (true, true),
        (false, true),
        (true, true),
    ];
    let mut receiver = Receiver::power_up(Pins::payload_bay());
    receiver.receive_all(&pairs.map(|(scl, sda)| Levels { scl, sda }));
    println!(rt; "A receiver after levels that are no frame")?;
    print::outputs(rt, receiver.outputs())
}

/// Fifty-one samples go into a ring of fifty: the first one leaves it.
fn ring(rt: &impl Print) -> io::Result<()> {
    let ring = Ring::recorded(&ramp());
    println!(rt; "A ring after the samples 1 to 51")?;
    println!(rt; "  content, oldest first")?;
    print::samples(rt, &ring.oldest_first().map(|sample| sample.value()))?;
    let mut full = [0; 100];
    ring.read_out(Resolution::Full, &mut full);
    print::bytes(rt, "readout, ten bits", &full)?;
    let mut short = [0; 50];
    ring.read_out(Resolution::Short, &mut short);
    print::bytes(rt, "readout, high bytes", &short)
}

/// A run of events, played from power-up.
fn replay(rt: &impl Print) -> io::Result<()> {
    let events = [
        Event::Write {
            number: register::CBUF_DLY_STOP,
            byte: 2,
        },
        Event::Tick(Samples {
            current: Sample::zero(),
            voltage: Sample::full_scale(),
        }),
        Event::Trip(Trip::Slow),
    ];
    let part = Part::replay(Pins::payload_bay(), &events);
    println!(rt; "A stop delay, a tick and a slow trip, played from power-up")?;
    print::outputs(rt, part.outputs())
}

fn main(rt: HostRuntime) -> Result<(), Stop> {
    let part = Part::power_up(Pins::payload_bay());
    let address = part.address();
    println!(rt; "A part powers up at address 0x{address:02X}")?;
    print::outputs(&rt, part.outputs())?;
    rigs(&rt, address)?;
    compared::tell(&rt, Pins::payload_bay(), address)?;
    noise(&rt)?;
    ring(&rt)?;
    replay(&rt)?;
    Ok(())
}
