//! The channel: when it is on, and what follows an event that has moved its enables or its latch.
ghost use Rattle.std.specs.Prelude.{◌≡◌};
ghost use Rattle.part.specs.Model.{model, monitor, keeping};
ghost use Rattle.part.specs.Channel.{majority as majority_of, channel as channel_of, turn_by, forgets as forgets_by, settled, settled_by, settled_signal};
ghost use Rattle.std.specs.Fn.{FnOnceReturnsAtMut};

use crate::Part;
use crate::monitor::{Extremes, RingState};
use registers::causes::Logs;
use samples::signal::Signal;

/// How the channel has turned in an event. Where it has turned off, a running ring goes on for the delay.
#[derive(Clone, Copy)]
enum Turn {
    On,
    Off { delay: u8 },
}

impl Part {
    /// At least two of EN1, EN2 and ON are 1.
    #[tactic(auto, unfolding(crate::specs::Channel::majority))]
    pub(crate) fn majority(&self) -> bool
        ensures { result ≡ majority_of (model self.now) }
    {
        let en1 = self.settings.en1();
        let en2 = self.settings.en2();
        let on = self.pins.on.is_high();
        en1 && en2 || en1 && on || en2 && on
    }

    /// The channel is on.
    #[tactic(auto, unfolding(crate::specs::Channel::channel))]
    pub(crate) fn channel(&self) -> bool
        ensures { result ≡ channel_of (model self.now) }
    {
        self.majority() && !self.latched
    }

    /// How the channel has turned, given what it was and what it is.
    fn turn(&self, was: bool, is: bool) -> Option<Turn>
        requires { is ≡ channel_of (model self.now) }
        ensures { result ≡ turn_by was (model self.now) }
    {
        match (was, is) {
            (false, true) => Some(Turn::On),
            (true, false) => {
                let delay = self.settings.stop_delay();
                Some(Turn::Off { delay })
            }
            _ => None,
        }
    }

    /// The extremes of the signal are reset: its reset bit is 1 or the channel turns on, and its hold bit is 0.
    fn forgets(&self, signal: Signal, was: bool, is: bool) -> bool
        requires { is ≡ channel_of (model self.now) }
        ensures { result ≡ forgets_by was (model self.now) signal }
    {
        let turns_on = !was && is;
        !self.settings.holds(signal) && (self.settings.resets(signal) || turns_on)
    }

    /// An event: what happens to the part, and what follows from it.
    pub(crate) fn event<F: FnOnce(&mut Part)>(&mut self, happens: F)
        requires { F.IsAlwaysCallable happens }
        ensures { (then : Part) × FnOnceReturnsAtMut F.FnOnce happens self.old tt then × (model self.new ≡ settled (model self.old) (model then)) }
    {
        let majority = self.majority();
        let channel = self.channel();
        happens(self);
        self.settle(majority, channel);
    }

    /// What follows an event for a signal, given what the channel was before it and what it is.
    // Both are handed down, and no turn: its contract would need a definition more, of what a turn does to a signal.
    fn settle_signal(&mut self, signal: Signal, was: bool, is: bool)
        requires { is ≡ channel_of (model self.old) }
        ensures { model self.new ≡ keeping (model self.old) signal (settled_signal was (model self.old) signal (monitor signal (model self.old))) }
    {
        let forgets = self.forgets(signal, was, is);
        let turn = self.turn(was, is);
        let monitor = self.monitor_mut(signal);
        if forgets {
            monitor.extremes = Extremes::reset();
        }
        match turn {
            Some(Turn::On) => monitor.state = RingState::Running,
            Some(Turn::Off { delay }) => monitor.state = monitor.state.slowed(delay),
            None => {}
        }
    }

    /// What follows an event, given what the majority and the channel were before it.
    #[tactic(auto, unfolding(crate::specs::Channel::majority, crate::specs::Channel::channel))]
    fn settle(&mut self, majority: bool, channel: bool)
        ensures { model self.new ≡ settled_by majority channel (model self.old) }
    {
        let falls = majority && !self.majority();
        // asked once for all that follows: each answer reads the settings
        let is = self.channel();
        let turns_off = channel && !is;
        self.settle_signal(Signal::Current, channel, is);
        self.settle_signal(Signal::Voltage, channel, is);
        if falls {
            self.latched = false;
            self.logs = Logs::none();
        }
        if turns_off {
            self.power_good = false;
            self.good_count = 0;
        }
    }
}
