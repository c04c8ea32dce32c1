// Held messages, passed by a barrier.

use pipe_base::{Body, Fate, HostId, Key, List, LoggedList, Message, NoMemory, Service, Ts};
use pipe_reorder::Reorder;
use std::alloc::Global;
use std::process::Abort;

/// A message by its timestamp and its sender.
type Named = (u64, u16);

// Each message that comes and its fate, then a barrier that passes, and what is logged.
struct Round {
    places: &'static [(u64, u16, Fate)],
    barrier: u64,
    logged: &'static [Named],
    held: usize,
}

// A message is logged once the barrier is above its timestamp, by timestamp and then by sender.
static ROUNDS: [Round; 2] = [
    Round {
        places: &[
            (105, 1, Fate::Held),
            (103, 2, Fate::Held),
            (105, 0, Fate::Held),
            (101, 3, Fate::Held),
            (105, 1, Fate::Repeat),
        ],
        barrier: 105,
        logged: &[(101, 3), (103, 2)],
        held: 2,
    },
    Round {
        places: &[
            (104, 2, Fate::Late { barrier: Ts(105) }),
            (105, 2, Fate::Held),
        ],
        barrier: 106,
        logged: &[(105, 0), (105, 1), (105, 2)],
        held: 0,
    },
];

fn message(alloc: Global, ts: u64, src: u16) -> Message {
    Message {
        service: Service::BestEffort,
        src: HostId(src),
        dst: HostId(9),
        ts: Ts(ts),
        body: Body::empty(alloc),
    }
}

fn place_all(
    rt: &impl Abort,
    alloc: Global,
    held: &mut Reorder,
    places: &[(u64, u16, Fate)],
) -> Result<(), NoMemory> {
    for (ts, src, fate) in places {
        assert!(rt; held.place(message(alloc, *ts, *src))? == *fate);
        *held = held.try_clone()?;
    }
    Ok(())
}

fn are_logged(rt: &impl Abort, logged: &LoggedList, wanted: &[Named]) {
    assert!(rt; logged.len() == wanted.len());
    for ((_, entry), (ts, src)) in logged.as_slice().iter().zip(wanted) {
        assert!(rt; entry.key.ts.0 == *ts && entry.key.src.0 == *src);
    }
}

fn play(rt: &impl Abort, alloc: Global, held: &mut Reorder) -> Result<(), NoMemory> {
    for round in &ROUNDS {
        place_all(rt, alloc, held, round.places)?;
        let mut logged = List::new(alloc);
        held.pass(Ts(round.barrier), &mut logged)?;
        are_logged(rt, &logged, round.logged);
        assert!(rt; held.len() == round.held && held.barrier().0 == round.barrier);
    }
    Ok(())
}

const KEY: Key = Key {
    ts: Ts(7),
    src: HostId(1),
};

fn hold_and_undo(rt: &impl Abort, alloc: Global, held: &mut Reorder) -> Result<(), NoMemory> {
    held.hold(KEY, Body::empty(alloc))?;
    assert!(rt; held.holds(KEY));
    held.unhold(KEY);
    assert!(rt; !held.holds(KEY) && held.len() == 0);
    Ok(())
}

// Of a failed host the first time stands: what it holds from then on is void, and what comes is discarded.
fn fail_twice(rt: &impl Abort, alloc: Global, held: &mut Reorder) -> Result<(), NoMemory> {
    assert!(rt; held.place(message(alloc, 203, 4))? == Fate::Held);
    assert!(rt; held.place(message(alloc, 205, 4))? == Fate::Held);
    held.fail(HostId(4), Ts(204))?;
    held.fail(HostId(4), Ts(202))?;
    assert!(rt; held.len() == 1 && held.failed().count() == 2);
    assert!(rt; held.place(message(alloc, 204, 4))? == Fate::Discarded { time: Ts(204) });
    Ok(())
}

// What was taken back is never logged, and comes as such until the barrier passes it. A tombstone can be taken away again.
fn recall_twice(rt: &impl Abort, alloc: Global, held: &mut Reorder) -> Result<(), NoMemory> {
    let key = |ts| Key {
        ts: Ts(ts),
        src: HostId(5),
    };
    assert!(rt; held.place(message(alloc, 301, 5))? == Fate::Held);
    held.recall(key(301))?;
    held.recall(key(302))?;
    held.recall(key(104))?;
    assert!(rt; !held.holds(key(301)) && !held.is_recalled(key(104)));
    assert!(rt; held.place(message(alloc, 301, 5))? == Fate::Recalled);
    assert!(rt; held.place(message(alloc, 302, 5))? == Fate::Recalled);
    held.bury(key(303))?;
    held.unbury(None);
    assert!(rt; held.place(message(alloc, 303, 5))? == Fate::Held);
    held.bury(key(303))?;
    let mut logged = List::new(alloc);
    held.pass(Ts(302), &mut logged)?;
    are_logged(rt, &logged, &[(203, 4)]);
    held.drop_buried();
    assert!(rt; held.len() == 0 && !held.is_recalled(key(301)) && held.is_recalled(key(302)));
    Ok(())
}

#[test]
fn logs_in_the_total_order(rt: HostRuntime) -> Result<(), NoMemory> {
    let mut held = Reorder::new(rt.alloc(), Service::BestEffort);
    hold_and_undo(&rt, rt.alloc(), &mut held)?;
    play(&rt, rt.alloc(), &mut held)?;
    fail_twice(&rt, rt.alloc(), &mut held)?;
    recall_twice(&rt, rt.alloc(), &mut held)
}
