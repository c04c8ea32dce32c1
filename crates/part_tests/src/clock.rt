// What no clause says: a clock's stamps worked out by hand, up to its end.

use pipe_base::{LAST_STAMP, Ts};
use pipe_clock::HostClock;

#[derive(Clone, Copy)]
enum Call {
    Stamp(u64),
    Tick(u64),
    Delivered(u64),
}

// Each call with the stamp that it gives and the next timestamp after it. The last stamp is refused.
static CALLS: [(Call, Option<u64>, u64); 6] = [
    (Call::Stamp(10), Some(10), 11),
    (Call::Tick(5), None, 11),
    (Call::Delivered(40), None, 41),
    (Call::Stamp(5), Some(41), 42),
    (Call::Stamp(LAST_STAMP), Some(LAST_STAMP), LAST_STAMP + 1),
    (Call::Stamp(0), None, LAST_STAMP + 1),
];

fn make(clock: &mut HostClock, call: Call) -> Option<u64> {
    match call {
        Call::Stamp(now) => match clock.stamp(Ts(now)) {
            Ok(stamp) => Some(stamp.0),
            Err(_) => None,
        },
        Call::Tick(now) => {
            clock.tick(Ts(now));
            None
        }
        Call::Delivered(ts) => {
            clock.delivered(Ts(ts));
            None
        }
    }
}

#[test]
fn stamps_above_all_that_it_heard(rt: HostRuntime) {
    let mut clock = HostClock::new(Ts(LAST_STAMP));
    for (call, stamp, next) in &CALLS {
        assert!(rt; make(&mut clock, *call) == *stamp && clock.next().0 == *next);
    }
}
