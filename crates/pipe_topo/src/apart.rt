// The fault of a network in which one host does not reach another.
ghost use Rattle.std.specs.Prelude.{◌≡◌, ◌<◌, ◌≤◌, length, replicate, true, IfOk};
ghost use Rattle.pipe_topo.specs.Fault.{apart_fault, apart_from, is_apart};

use crate::wiring::Wiring;
use crate::{LinkSet, TopoFault};
use pipe_base::{NoMemory, NodeId};
use std::alloc::Global;

// The first pair of hosts that are apart, in order of the first and then of the second.
pub fn apart_fault(alloc: Global, wiring: &Wiring) -> Result<Option<TopoFault>, NoMemory>
    ensures { IfOk result (λ fault. fault ≡ apart_fault wiring.now) }
{
    let all = LinkSet::all(alloc, wiring.links())?;
    for a in 0..wiring.hosts() {
        if let Some(b) = apart_from(alloc, wiring, &all, a)? {
            return Ok(Some(TopoFault::Apart { a, b }));
        }
    }
    Ok(None)
}

// The first host that comes after this one, or is it, and is not reached from it.
#[tactic(auto, using(crate::proofs::FirstLaws::first_at, crate::proofs::FirstLaws::first_more))]
fn apart_from(
    alloc: Global,
    wiring: &Wiring,
    all: &LinkSet,
    a: u16,
) -> Result<Option<u16>, NoMemory>
    requires host { a < wiring.now.hosts }
    requires all { all.now ≡ replicate (length wiring.now.links) true }
    ensures { IfOk result (λ b. b ≡ apart_from wiring.now a) }
{
    for b in 0..wiring.hosts() {
        if is_apart(alloc, wiring, all, a, b)? {
            return Ok(Some(b));
        }
    }
    Ok(None)
}

fn is_apart(alloc: Global, wiring: &Wiring, all: &LinkSet, a: u16, b: u16) -> Result<bool, NoMemory>
    requires nodes { wiring.now.hosts ≤ wiring.now.nodes }
    requires first { a < wiring.now.hosts }
    requires second { b < wiring.now.hosts }
    requires all { all.now ≡ replicate (length wiring.now.links) true }
    ensures { IfOk result (λ yes. yes ≡ is_apart wiring.now a b) }
{
    if b < a {
        return Ok(false);
    }
    let reached = wiring.reaches(alloc, NodeId(a), NodeId(b), all)?;
    Ok(!reached)
}
