// Which links are silent, over calls worked out by hand.

use pipe_barrier::Silence;
use pipe_base::{LinkId, NoMemory, Ts};
use std::process::Abort;

const A: LinkId = LinkId(4);

const B: LinkId = LinkId(7);

const OTHER: LinkId = LinkId(5);

#[derive(Clone, Copy)]
enum Call {
    Took(LinkId),
    Tick(u64),
}

// Each call with a reading after it, and whether A and B are silent at that reading for a
// patience of 10: the quiet start is the first tick since the last take.
static CALLS: [(Call, u64, bool, bool); 7] = [
    (Call::Took(A), 1000, false, false),
    (Call::Tick(5), 14, false, false),
    (Call::Tick(9), 15, true, true),
    (Call::Took(A), 1000, false, true),
    (Call::Tick(16), 25, false, true),
    (Call::Tick(20), 26, true, true),
    (Call::Took(OTHER), 26, true, true),
];

fn make(silence: &mut Silence, call: Call) {
    match call {
        Call::Took(link) => silence.took(link),
        Call::Tick(reading) => silence.tick(Ts(reading)),
    }
}

fn make_all(rt: &impl Abort, silence: &mut Silence) {
    for (call, now, a, b) in &CALLS {
        make(silence, *call);
        assert!(rt; silence.silent(A, Ts(*now)) == *a && silence.silent(B, Ts(*now)) == *b);
        assert!(rt; !silence.silent(OTHER, Ts(*now)));
    }
}

#[test]
fn silent_from_the_first_tick_since_the_last_take(rt: HostRuntime) -> Result<(), NoMemory> {
    make_all(
        &rt,
        &mut Silence::new(rt.alloc(), [A, B].as_slice(), Ts(10))?,
    );
    Ok(())
}
