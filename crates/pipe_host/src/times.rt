// How a host's clock follows what the host did.
ghost use Rattle.std.specs.Prelude.{◌≡◌, ◌≤◌, ◌-◌, ◌^◌, max, IfSome};
ghost use Rattle.pipe_base.specs.Clock.{after_logged, after_stamp, next_after};
ghost use Rattle.pipe_base.specs.Messages.{AreBelow};
ghost use Rattle.pipe_model.specs.Clock.{tick_reading};

use pipe_base::{Entry, Service, Ts};
use pipe_clock::HostClock;
use pipe_model::{Event, Record};

/// The clock is above all that was logged, which is below the end of the type.
pub fn deliver(clock: &mut HostClock, logged: &[(Service, Entry)])
    ensures next { AreBelow (2 ^ 64 - 1) logged.now
        → clock.new.next.0 ≡ max clock.old.next.0 (after_logged logged.now) }
    ensures top { clock.new.top ≡ clock.old.top }
{
    'entries: for (_, entry) in logged {
        clock.delivered(entry.key.ts);
    }
}

/// The clock follows a record of its host, which logged below the end of the type.
pub fn follow(clock: &mut HostClock, made: &Record)
    ensures next { AreBelow (2 ^ 64 - 1) made.now.step.logged
        → IfSome made.now.step.stamped (λ ts. ts.0 ≤ clock.old.top.0)
        → clock.new.next.0 ≡ next_after clock.old.next.0 (tick_reading made.now.event) made.now.step.stamped made.now.step.logged }
    ensures top { clock.new.top ≡ clock.old.top }
{
    read(clock, &made.event);
    stamp(clock, made.step.stamped());
    deliver(clock, made.step.logged());
}

/// The clock is at least the reading of a tick.
fn read(clock: &mut HostClock, event: &Event)
    ensures next { clock.new.next.0 ≡ max clock.old.next.0 (tick_reading event.now) }
    ensures top { clock.new.top ≡ clock.old.top }
{
    if let Event::Tick { now, .. } = event {
        clock.tick(*now);
    }
}

/// The clock is above what was stamped.
fn stamp(clock: &mut HostClock, stamped: Option<Ts>)
    ensures next { IfSome stamped (λ ts. ts.0 ≤ clock.old.top.0)
        → clock.new.next.0 ≡ max clock.old.next.0 (after_stamp stamped) }
    ensures top { clock.new.top ≡ clock.old.top }
{
    if let Some(stamp) = stamped {
        clock.delivered(stamp);
    }
}
