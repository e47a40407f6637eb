//! A report as an engineer reads it, and where two reports differ.
use crate::{names, print};
use registers::causes::{Cause, Compare, Trip};
use registers::register::COUNT;
use report::{SIGNALS, View};
use samples::ring::LENGTH;
use samples::signal::Signal;
use std::{array, io};

const CAUSES: [(Cause, &str); 7] = [
    (Cause::Trip(Trip::Fast), "fast trip"),
    (Cause::Trip(Trip::Slow), "slow trip"),
    (Cause::Compare(Compare::Uv1), "undervoltage warning"),
    (Cause::Compare(Compare::Uv2), "undervoltage critical"),
    (Cause::Compare(Compare::Ov1), "overvoltage warning"),
    (Cause::Compare(Compare::Ov2), "overvoltage critical"),
    (Cause::Compare(Compare::Oi), "overcurrent warning"),
];

/// The samples of a signal's ring, the oldest first. A report has one at each of its places.
fn samples(view: View, signal: Signal) -> [u16; LENGTH] {
    array::from_fn(|place| view.sample(signal, place).unwrap())
}

/// A report, and where it is printed.
#[derive(Drop)]
pub(crate) struct Page<'a, P> {
    rt: &'a P,
    view: View<'a>,
}

impl<'a, P: Print> Page<'a, P> {
    pub(crate) fn new(rt: &'a P, view: View<'a>) -> Page<'a, P> {
        Page { rt, view }
    }

    pub(crate) fn whole(&self) -> io::Result<()> {
        self.settings()?;
        self.pins()?;
        self.causes()?;
        for signal in SIGNALS {
            self.waveform(signal)?;
        }
        Ok(())
    }

    fn settings(&self) -> io::Result<()> {
        println!(self.rt; "  settings")?;
        for number in 0..COUNT as u8 {
            if let Some(byte) = self.view.setting(number) {
                print::named(self.rt, number, byte)?;
            }
        }
        Ok(())
    }

    fn pins(&self) -> io::Result<()> {
        match self.view.prot() {
            Some(prot) => print!(self.rt; "  PROT {prot}")?,
            None => print!(self.rt; "  PROT unknown")?,
        }
        let on = self.view.on();
        let pol = self.view.pol();
        let good = if self.view.power_good() {
            "good"
        } else {
            "not good"
        };
        println!(self.rt; ", ON {on}, POL {pol}, power {good}")
    }

    fn causes(&self) -> io::Result<()> {
        println!(self.rt; "  causes logged")?;
        for (cause, name) in CAUSES {
            if self.view.logged(cause) {
                println!(self.rt; "    {name}")?;
            }
        }
        Ok(())
    }

    /// The latest sample and the extremes, and the waveform, the oldest sample first.
    fn waveform(&self, signal: Signal) -> io::Result<()> {
        let latest = self.view.latest(signal);
        match (self.view.smallest(signal), self.view.largest(signal)) {
            (Some(smallest), Some(largest)) => {
                println!(self.rt; "  {signal}: latest {latest}, from {smallest} to {largest}")?
            }
            _ => println!(self.rt; "  {signal}: latest {latest}, no extremes")?,
        }
        print::samples(self.rt, &samples(self.view, signal))
    }

    /// Each register and each sample in which another report differs from this one.
    pub(crate) fn differences(&self, other: View) -> io::Result<()> {
        for number in 0..COUNT as u8 {
            self.register_difference(other, number)?;
        }
        for signal in SIGNALS {
            self.sample_differences(other, signal)?;
        }
        Ok(())
    }

    fn register_difference(&self, other: View, number: u8) -> io::Result<()> {
        match (
            names::of(number),
            self.view.register(number),
            other.register(number),
        ) {
            (Some((name, _)), Some(a), Some(b)) if a != b => {
                println!(self.rt; "    {number:02X} {name:<16} {a:02X} and {b:02X}")
            }
            _ => Ok(()),
        }
    }

    fn sample_differences(&self, other: View, signal: Signal) -> io::Result<()> {
        let pairs = samples(self.view, signal)
            .into_iter()
            .zip(samples(other, signal));
        for (place, (a, b)) in pairs.enumerate() {
            if a != b {
                println!(self.rt; "    {signal} sample {place}: {a} and {b}")?;
            }
        }
        Ok(())
    }
}
