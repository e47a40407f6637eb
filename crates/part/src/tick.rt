//! One tick of 100 microseconds: a current and a voltage sample.
ghost use Rattle.std.specs.Prelude.{◌≡◌, ◌&&◌};
ghost use Rattle.part.specs.Model.{model, monitor, keeping};
ghost use Rattle.part.specs.Tick.{counts as counts_of, stores as stores_of, beyond as beyond_of, positive as positive_of, acts as acts_of, critical as critical_of, guards as guards_of, latches as latches_of, next_count, next_good, sampled, measured};
ghost use Rattle.part.specs.Events.{step, tick as ticks};
ghost use Rattle.registers.specs.declared.causes.Compare.TheVariants.{Uv1, Uv2, Ov1, Ov2, Oi};

use crate::Part;
use registers::causes::{Compare, Compares, Logs};
use registers::pins::Strap;
use samples::sample::Sample;
use samples::signal::Signal;

/// The good count rests here.
const LONGEST_COUNT: u16 = 4000;

/// The samples of a tick.
#[derive(Clone, Copy)]
pub struct Samples {
    pub current: Sample,
    pub voltage: Sample,
}

impl Part {
    /// A tick brings a current and a voltage sample.
    #[tactic(auto, unfolding(crate::specs::Events::step))]
    pub fn tick(&mut self, samples: Samples)
        ensures { model self.new ≡ step (model self.old) (ticks samples.current.value samples.voltage.value) }
    {
        self.event(|part| part.measure(samples));
    }

    fn measure(&mut self, samples: Samples)
        ensures { model self.new ≡ measured (model self.old) samples.current.value samples.voltage.value }
    {
        let logs = self.logged(samples);
        let earlier = self.positives(samples);
        let count = self.next_count(samples);
        let good = self.next_good(samples);
        let latch = self.critical(samples) && latches(self.pins.prot);
        self.take(Signal::Current, samples.current);
        self.take(Signal::Voltage, samples.voltage);
        if latch {
            self.latched = true;
        }
        self.logs = logs;
        self.earlier = earlier;
        self.good_count = count;
        self.power_good = good;
    }

    /// A sample of a signal comes: the extremes may count it, and the ring may store it.
    fn take(&mut self, signal: Signal, sample: Sample)
        ensures { model self.new ≡ keeping (model self.old) signal (sampled (model self.old) signal sample.value (monitor signal (model self.old))) }
    {
        let counts = self.counts(signal);
        let stores = self.stores(signal);
        let monitor = self.monitor_mut(signal);
        monitor.latest = sample;
        if counts {
            monitor.extremes.count(sample);
        }
        if stores {
            monitor.ring.store(sample);
        }
        monitor.state = monitor.state.ticked();
    }

    fn counts(&self, signal: Signal) -> bool
        ensures { result ≡ counts_of (model self.now) signal }
    {
        !self.settings.holds(signal) && !self.settings.resets(signal)
    }

    fn stores(&self, signal: Signal) -> bool
        ensures { result ≡ stores_of (model self.now) signal }
    {
        self.monitor(signal).state.is_moving() && self.settings.runs(signal)
    }

    // A compare and the samples, here and below, and no struct: it would be made for one call.
    fn beyond(&self, compare: Compare, samples: Samples) -> bool
        ensures { result ≡ beyond_of (model self.now) samples.current.value samples.voltage.value compare }
    {
        let threshold = self.settings.threshold(compare);
        match compare {
            Compare::Uv1 | Compare::Uv2 => samples.voltage.value() < threshold,
            Compare::Ov1 | Compare::Ov2 => threshold < samples.voltage.value(),
            Compare::Oi => threshold < samples.current.value(),
        }
    }

    fn positive(&self, compare: Compare, samples: Samples) -> bool
        ensures { result ≡ positive_of (model self.now) samples.current.value samples.voltage.value compare }
    {
        self.beyond(compare, samples) && self.power_good
    }

    fn acts(&self, compare: Compare, samples: Samples) -> bool
        ensures { result ≡ acts_of (model self.now) samples.current.value samples.voltage.value compare }
    {
        self.positive(compare, samples)
            && (!self.settings.deglitches(compare) || self.earlier.get(compare))
    }

    fn critical(&self, samples: Samples) -> bool
        ensures { result ≡ critical_of (model self.now) samples.current.value samples.voltage.value }
    {
        self.acts(Compare::Uv2, samples) || self.acts(Compare::Ov2, samples)
    }

    fn positives(&self, samples: Samples) -> Compares
        ensures { result ≡ (measured (model self.now) samples.current.value samples.voltage.value).earlier }
    {
        flags(|compare| self.positive(compare, samples))
    }

    fn logged(&self, samples: Samples) -> Logs
        ensures { result ≡ (measured (model self.now) samples.current.value samples.voltage.value).logs }
    {
        let compares = flags(|compare| self.acts(compare, samples)
            || self.logs.compares.get(compare));
        Logs {
            compares,
            ..self.logs
        }
    }

    fn next_count(&self, samples: Samples) -> u16
        ensures { result ≡ next_count (model self.now) samples.current.value samples.voltage.value }
    {
        let low = self.beyond(Compare::Uv2, samples);
        let high = self.beyond(Compare::Ov2, samples);
        if low || high || !self.channel() {
            0
        } else {
            self.good_count.saturating_add(1).min(LONGEST_COUNT)
        }
    }

    fn next_good(&self, samples: Samples) -> bool
        ensures { result ≡ next_good (model self.now) samples.current.value samples.voltage.value }
    {
        let long_enough = self.settings.good_delay() <= self.next_count(samples);
        long_enough || self.power_good && !(self.critical(samples) && guards(self.pins.prot))
    }
}

/// The flags that a test of each compare gives.
fn flags<F: Fn(Compare) -> bool>(test: F) -> Compares
    requires { F.IsAlwaysCallable test }
    ensures uv1 { F.post test Uv1 result.uv1 }
    ensures uv2 { F.post test Uv2 result.uv2 }
    ensures ov1 { F.post test Ov1 result.ov1 }
    ensures ov2 { F.post test Ov2 result.ov2 }
    ensures oi { F.post test Oi result.oi }
{
    Compares {
        uv1: test(Compare::Uv1),
        uv2: test(Compare::Uv2),
        ov1: test(Compare::Ov1),
        ov2: test(Compare::Ov2),
        oi: test(Compare::Oi),
    }
}

/// A critical compare that acts clears power-good.
fn guards(prot: Strap) -> bool
    ensures { result ≡ guards_of prot }
{
    matches!(prot, Strap::Low | Strap::High)
}

/// A critical compare that acts latches the part.
fn latches(prot: Strap) -> bool
    ensures { result ≡ latches_of prot }
{
    matches!(prot, Strap::Low)
}
