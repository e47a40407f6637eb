use part::events::Pin;
use part::{Part, Samples};
use registers::causes::Trip;
use registers::pins::{Level, Pins};
use registers::register;
use samples::sample::Sample;
use samples::signal::Signal;

/// The run bits, the enables and the readout are as at power-up unless a test writes them.
fn powered() -> Part {
    Part::power_up(Pins::payload_bay())
}

fn sample(value: u16) -> Sample {
    Sample::new(value).unwrap_or(Sample::full_scale())
}

/// A tick with this voltage and no current.
fn tick(part: &mut Part, voltage: u16) {
    part.tick(Samples {
        current: Sample::zero(),
        voltage: sample(voltage),
    });
}

/// Ticks with the voltages `step`, `2 * step`, .. and no current.
fn ramp(part: &mut Part, ticks: u16, step: u16) {
    for k in 1..=ticks {
        tick(part, k.saturating_mul(step));
    }
}

fn ticks(part: &mut Part, count: u16) {
    for _ in 0..count {
        tick(part, 100);
    }
}

/// The voltage samples above 0 that the ring holds, at full resolution.
fn stored(part: &mut Part) -> usize {
    part.write(register::CBUFRD_HIBYONLY, 0);
    let mut block = [0; 100];
    part.block(Signal::Voltage, &mut block);
    block
        .chunks(2)
        .filter(|sample| sample.iter().any(|byte| *byte != 0))
        .count()
}

#[test]
fn full_scale(rt: HostRuntime) {
    let mut part = powered();
    part.tick(Samples {
        current: sample(1023),
        voltage: sample(1023),
    });
    assert_eq!(rt; part.register(register::ADC_CS_MSB), Some(255));
    assert_eq!(rt; part.register(register::ADC_CS_LSB), Some(3));
    assert!(rt; Sample::new(1024).is_none());
}

#[test]
fn fifty_one_voltages_in_full(rt: HostRuntime) {
    let mut part = powered();
    part.write(register::CBUFRD_HIBYONLY, 0);
    ramp(&mut part, 51, 1);
    let mut block = [7; 100];
    part.block(Signal::Voltage, &mut block);
    assert_eq!(rt; (block[0], block[1]), (0, 3));
    assert_eq!(rt; (block[98], block[99]), (0, 2));
}

#[test]
fn short_readout_repeats(rt: HostRuntime) {
    let mut part = powered();
    ramp(&mut part, 50, 4);
    let mut block = [7; 51];
    part.block(Signal::Voltage, &mut block);
    assert_eq!(rt; block[0], 2);
    assert_eq!(rt; block[49], 1);
    assert_eq!(rt; block[50], 2);
}

/// A trip with this stop delay, and then ticks: how many of their samples the ring stores.
fn stored_after_trip(delay: u8, count: u16) -> usize {
    let mut part = powered();
    part.write(register::CBUF_DLY_STOP, delay);
    part.trip(Trip::Fast);
    ticks(&mut part, count);
    stored(&mut part)
}

#[test]
fn stop_delays(rt: HostRuntime) {
    assert_eq!(rt; stored_after_trip(2, 5), 2);
    assert_eq!(rt; stored_after_trip(0, 5), 0);
    assert_eq!(rt; stored_after_trip(63, 49), 49);
    assert_eq!(rt; stored_after_trip(63, 60), 50);
}

/// Of the samples 1 to 60 the ring stores the first fifty.
#[test]
fn longest_delay_is_fifty(rt: HostRuntime) {
    let mut part = powered();
    part.write(register::CBUFRD_HIBYONLY, 0);
    part.write(register::CBUF_DLY_STOP, 63);
    part.trip(Trip::Slow);
    ramp(&mut part, 60, 1);
    let mut block = [7; 100];
    part.block(Signal::Voltage, &mut block);
    assert_eq!(rt; (block[0], block[1]), (0, 2));
    assert_eq!(rt; (block[98], block[99]), (0, 1));
}

/// The sample that shuts the channel is stored before the delay begins.
#[test]
fn shutting_sample_is_not_counted(rt: HostRuntime) {
    let mut part = powered();
    part.write(register::CBUF_CHX_STORE, 0);
    ticks(&mut part, 500);
    part.write(register::CBUF_CHX_STORE, 15);
    part.write(register::UV2TH_MSB, 10);
    part.write(register::CBUF_DLY_STOP, 2);
    tick(&mut part, 1);
    assert_eq!(rt; part.register(register::FAULT0), Some(16));
    ticks(&mut part, 5);
    assert_eq!(rt; stored(&mut part), 3);
}

#[test]
fn power_good_at_the_500th_good_tick(rt: HostRuntime) {
    let mut part = powered();
    ticks(&mut part, 499);
    assert_eq!(rt; part.register(register::STATUS3), Some(0));
    ticks(&mut part, 1);
    assert_eq!(rt; part.register(register::STATUS3), Some(1));
}

#[test]
fn on_falling_alone_leaves_the_latch(rt: HostRuntime) {
    let mut part = powered();
    part.write(register::CHXEN, 3);
    part.trip(Trip::Slow);
    part.pin(Pin::On, Level::Low);
    assert_eq!(rt; part.register(register::STATUS0), Some(16));
    part.write(register::CHXEN, 2);
    assert_eq!(rt; part.register(register::STATUS0), Some(0));
}
