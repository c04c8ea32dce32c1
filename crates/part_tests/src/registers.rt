// The registers of a node over calls worked out by hand.

use pipe_barrier::Registers;
use pipe_base::{LinkId, NoMemory, Ts};
use std::process::Abort;

const A: LinkId = LinkId(4);

const B: LinkId = LinkId(7);

const NONE: LinkId = LinkId(5);

#[derive(Clone, Copy)]
enum Call {
    Raise(LinkId, u64, u64),
    Down(LinkId),
    Remove(LinkId),
}

/// Whether a link is up, whether it is removed, and its commit register.
type Told = (bool, bool, u64);

// Each call with the two barriers after it and what is told of A, worked out by hand from the rule: the barrier follows the
// least register of the links in use and never falls; a link that is down stays in commit use until it is removed.
static CALLS: [(Call, u64, u64, Told); 10] = [
    (Call::Raise(A, 5, 3), 0, 0, (true, false, 3)),
    (Call::Raise(B, 7, 4), 5, 3, (true, false, 3)),
    (Call::Raise(B, 6, 9), 5, 3, (true, false, 3)),
    (Call::Raise(A, 10, 8), 7, 8, (true, false, 8)),
    (Call::Down(A), 7, 8, (false, false, 8)),
    (Call::Raise(B, 20, 30), 20, 8, (false, false, 8)),
    (Call::Remove(A), 20, 30, (false, true, 8)),
    (Call::Raise(B, 21, 31), 21, 31, (false, true, 8)),
    (Call::Down(B), 21, 31, (false, true, 8)),
    (Call::Remove(B), 21, 31, (false, true, 8)),
];

fn tells(registers: &Registers, link: LinkId, told: Told) -> bool {
    registers.is_up(link) == told.0
        && registers.is_removed(link) == told.1
        && registers.frozen(link).0 == told.2
}

// What a raise leads to is known before it is made.
fn foretells(registers: &Registers, call: Call, be: u64, commit: u64) -> bool {
    match call {
        Call::Raise(link, raised_be, raised_commit) => {
            let raised = registers.raised(link, Ts(raised_be), Ts(raised_commit));
            raised.be.0 == be && raised.commit.0 == commit
        }
        _ => true,
    }
}

fn make(registers: &mut Registers, call: Call) {
    match call {
        Call::Raise(link, be, commit) => registers.raise(link, Ts(be), Ts(commit)),
        Call::Down(link) => registers.down(link),
        Call::Remove(link) => registers.remove(link),
    }
}

fn make_all(rt: &impl Abort, registers: &mut Registers) {
    for (call, be, commit, told) in &CALLS {
        assert!(rt; foretells(registers, *call, *be, *commit));
        make(registers, *call);
        assert!(rt; registers.be().0 == *be && registers.commit().0 == *commit);
        assert!(rt; tells(registers, A, *told));
    }
}

#[test]
fn barriers_follow_the_links_in_use(rt: HostRuntime) -> Result<(), NoMemory> {
    let mut registers = Registers::new(rt.alloc(), [A, B].as_slice())?;
    assert!(rt;
        tells(&registers, B, (true, false, 0)) && tells(&registers, NONE, (false, false, 0))
    );
    make_all(&rt, &mut registers);
    assert!(rt; tells(&registers.try_clone()?, B, (false, true, 31)));
    Ok(())
}
