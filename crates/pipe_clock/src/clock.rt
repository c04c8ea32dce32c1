// The clock of a host.
ghost use Rattle.std.specs.Prelude.{◌≡◌, ◌+◌, ◌-◌, ◌^◌, ◌<◌, max, min, IfErr, IfOk};

use pipe_base::Ts;

/// A host's next timestamp: at least each reading of its ticks, and above all that it stamped and all that was delivered. No
/// stamp is past the top.
#[derive(Clone, Copy, Debug)]
pub struct HostClock {
    next: Ts,
    top: Ts,
    ghost short: { top.0 < 2 ^ 64 - 1 },
}

/// The clock is at its end: a send would be stamped past the top.
#[derive(Clone, Copy, Debug, PartialEq, Eq)]
pub struct ClockEnd {
    pub next: Ts,
}

impl HostClock {
    ghost use Rattle.pipe_clock.specs.Stamping.{IsRefused, IsStamped};

    /// A clock to which nothing has happened, with its last reading and stamp. Takes no memory.
    pub fn new(top: Ts) -> HostClock
        requires { top.0 < 2 ^ 64 - 1 }
        ensures next { result.next.0 ≡ 0 }
        ensures top { result.top ≡ top }
    {
        HostClock { next: Ts(0), top }
    }

    pub fn next(&self) -> Ts
        ensures { result ≡ self.now.next }
    {
        self.next
    }

    /// Stamps a send that reads `now`: with the reading, but not below the next timestamp.
    pub fn stamp(&mut self, now: Ts) -> Result<Ts, ClockEnd>
        ensures ok { IfOk result (IsStamped now self.old self.new) }
        ensures err { IfErr result (IsRefused now self.old self.new) }
    {
        let stamp = Ts(now.0.max(self.next.0));
        if stamp > self.top {
            return Err(ClockEnd { next: self.next });
        }
        self.next = Ts(stamp.0 + 1);
        Ok(stamp)
    }

    /// The host's clock reads `now` at a tick.
    pub fn tick(&mut self, now: Ts)
        ensures next { self.new.next.0 ≡ max self.old.next.0 now.0 }
        ensures top { self.new.top ≡ self.old.top }
    {
        self.next = Ts(self.next.0.max(now.0));
    }

    /// A message with this timestamp was delivered. Timestamps of messages are far below the end of the type.
    pub fn delivered(&mut self, ts: Ts)
        ensures next { self.new.next.0 ≡ max self.old.next.0 (min (ts.0 + 1) (2 ^ 64 - 1)) }
        ensures top { self.new.top ≡ self.old.top }
    {
        self.next = Ts(self.next.0.max(ts.0.saturating_add(1)));
    }
}
