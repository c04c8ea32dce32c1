// Registers and silence together.

use pipe_barrier::{Barriers, InLinks};
use pipe_base::{LinkId, NoMemory, Ts};
use std::alloc::Global;
use std::process::Abort;

const A: LinkId = LinkId(4);

const B: LinkId = LinkId(7);

fn are(barriers: Barriers, be: u64, commit: u64) -> bool {
    barriers.be.0 == be && barriers.commit.0 == commit
}

fn receive_both(rt: &impl Abort, links: &mut InLinks) {
    links.receive(A, Ts(5), Ts(3));
    links.tick(Ts(1), &[]);
    assert!(rt; are(links.barriers_with(B, Ts(20), Ts(30)), 5, 3));
    links.receive(B, Ts(20), Ts(30));
    assert!(rt; are(links.barriers(), 5, 3));
}

// At the reading 10 no link is silent, at 11 A is.
fn fall_silent(rt: &impl Abort, alloc: Global, links: &mut InLinks) -> Result<(), NoMemory> {
    assert!(rt; links.silent_marks(alloc, Ts(10))?.is_empty());
    let marks = links.silent_marks(alloc, Ts(11))?;
    assert!(rt; marks.len() == 1 && matches!(marks.get(0), Some((A, Ts(3)))));
    assert!(rt; are(links.barriers_without(&marks)?, 20, 3));
    links.tick(Ts(11), marks.as_slice());
    Ok(())
}

// A link that goes down holds the best-effort barrier no more, and still the commit barrier.
#[test]
fn a_silent_link_goes_down(rt: HostRuntime) -> Result<(), NoMemory> {
    let mut links = InLinks::new(rt.alloc(), [A, B].as_slice(), Ts(10))?;
    receive_both(&rt, &mut links);
    fall_silent(&rt, rt.alloc(), &mut links.try_clone()?)?;
    fall_silent(&rt, rt.alloc(), &mut links)?;
    assert!(rt; are(links.barriers(), 20, 3) && !links.is_up(A) && links.is_up(B));
    Ok(())
}
