//! What the part keeps of one signal: its latest sample, its extremes and its ring.
ghost use Rattle.std.specs.Prelude.{◌≡◌};
ghost use Rattle.part.specs.Monitors.{monitored, fresh};
ghost use Rattle.part.specs.Channel.{slowed as slowed_by};
ghost use Rattle.part.specs.Tick.{moving, one_less as one_less_of, lesser, greater};
ghost use Rattle.part.specs.Events.{woken, with_state};

use samples::ring::Ring;
use samples::sample::Sample;

/// Whether a ring stores: it runs, it goes on for some more ticks, or it is stopped.
#[derive(Clone, Copy, PartialEq, Eq)]
pub enum RingState {
    Running,
    CountingDown(u8),
    Stopped,
}

/// The smallest and the largest sample counted since they were last reset.
// No `Option` where none was counted: the part resets both to values by which the next compare needs no case of its own,
// and its registers show them.
#[derive(Clone, Copy)]
pub struct Extremes {
    pub(crate) smallest: Sample,
    pub(crate) largest: Sample,
}

/// One signal.
// No model: the part reads its fields, and its clauses speak of them.
#[derive(Drop)]
pub struct Monitor {
    pub(crate) latest: Sample,
    pub(crate) extremes: Extremes,
    pub(crate) ring: Ring,
    pub(crate) state: RingState,
}

impl Extremes {
    /// Reset extremes: full scale for the smallest and 0 for the largest, so that the first counted sample takes both.
    pub(crate) fn reset() -> Extremes
        ensures smallest { result.smallest.value ≡ 1023 }
        ensures largest { result.largest.value ≡ 0 }
    {
        Extremes {
            smallest: Sample::full_scale(),
            largest: Sample::zero(),
        }
    }

    /// A sample is counted.
    pub(crate) fn count(&mut self, sample: Sample)
        ensures smallest { self.new.smallest.value ≡ lesser sample.value self.old.smallest.value }
        ensures largest { self.new.largest.value ≡ greater sample.value self.old.largest.value }
    {
        self.smallest = self.smallest.min(sample);
        self.largest = self.largest.max(sample);
    }
}

impl RingState {
    /// The ring is not stopped.
    pub(crate) fn is_moving(self) -> bool
        ensures { result ≡ moving self }
    {
        !matches!(self, RingState::Stopped)
    }

    /// One tick on: a ring that counts down counts one less, and stops at 0.
    pub(crate) fn ticked(self) -> RingState
        ensures { result ≡ one_less_of self }
    {
        match self {
            RingState::CountingDown(left) if left <= 1 => RingState::Stopped,
            RingState::CountingDown(left) => RingState::CountingDown(left - 1),
            state => state,
        }
    }

    /// The channel has turned off: a running ring goes on for the delay.
    pub(crate) fn slowed(self, delay: u8) -> RingState
        ensures { result ≡ slowed_by delay self }
    {
        match self {
            RingState::Running if delay == 0 => RingState::Stopped,
            RingState::Running => RingState::CountingDown(delay),
            state => state,
        }
    }
}

impl Monitor {
    /// A signal at power-up.
    pub(crate) fn new() -> Monitor
        ensures { monitored result ≡ fresh }
    {
        Monitor {
            latest: Sample::zero(),
            extremes: Extremes::reset(),
            ring: Ring::new(),
            state: RingState::Running,
        }
    }

    /// The run bit is written as 1: a stopped ring runs.
    pub(crate) fn wake(&mut self)
        ensures { monitored self.new ≡ with_state (monitored self.old) (woken self.old.state) }
    {
        if self.state == RingState::Stopped {
            self.state = RingState::Running;
        }
    }

    /// The ring is read out.
    pub(crate) fn stop(&mut self)
        ensures { monitored self.new ≡ with_state (monitored self.old) RingState.Stopped }
    {
        self.state = RingState::Stopped;
    }
}
