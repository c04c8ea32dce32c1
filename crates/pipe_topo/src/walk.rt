// A walk backwards from a node, breadth first: how many links lead on to it from each node.
ghost use Rattle.std.specs.Prelude.{◌≡◌, ℕ, ◌+◌, ◌<◌, ◌≤◌, ◌∷◌, length, min, sum, IfOk, OnOk};
ghost use Rattle.pipe_graph.specs.Graph.{IsGraph};
ghost use Rattle.pipe_topo.specs.Sets.{has};
ghost use Rattle.pipe_topo.specs.Walk.{IsDistances, IsWalk, LooksAlong, away_of, far};
ghost use Rattle.pipe_base.specs.Limits.{most_nodes};

use crate::wiring::Wiring;
use crate::{FAR, LinkSet};
use pipe_base::{LinkId, NoMemory, NodeId};
use std::alloc::Global;
use std::collections::VecDeque;

// For each node how many links of the set lead on from it to `to`, at least, or `FAR`.
pub fn walk_back(
    alloc: Global,
    wiring: &Wiring,
    to: NodeId,
    by: &LinkSet,
) -> Result<Vec<u16>, NoMemory>
    requires node { to.0 < wiring.now.nodes }
    requires links { length by.now ≡ length wiring.now.links }
    ensures right { IfOk result (λ away. IsDistances wiring.now (has by.now) to.0 away.items) }
    ensures graph { IsGraph wiring.now }
    ensures few { wiring.now.nodes ≤ most_nodes }
{
    let mut away = vec![in alloc; FAR; usize::from(wiring.nodes())]?;
    away[usize::from(to.0)] = 0;
    let mut queue = VecDeque::with_capacity(alloc, usize::from(wiring.nodes()))?;
    queue.push_back(to)?;
    while let Some(node) = queue.pop_front() {
        look_back(wiring, by, node, &mut away, &mut queue)?;
    }
    Ok(away)
}

// Looks along each link that ends at the node.
fn look_back(
    wiring: &Wiring,
    by: &LinkSet,
    node: NodeId,
    away: &mut [u16],
    queue: &mut VecDeque<NodeId>,
) -> Result<(), NoMemory>
    requires graph { IsGraph wiring.now }
    requires node { node.0 < wiring.now.nodes }
    requires links { length by.now ≡ length wiring.now.links }
    requires size { length away.old ≡ wiring.now.nodes }
    ensures walk { OnOk result ((to : ℕ) → IsWalk wiring.now (has by.now) to away.old (node ∷ queue.old.items)
        → IsWalk wiring.now (has by.now) to away.new queue.new.items) }
    ensures work { OnOk result (sum away.new + length queue.new.items ≤ sum away.old + length queue.old.items) }
{
    let next = entry(away, node).saturating_add(1);
    for link in wiring.ins(node) {
        look_along(wiring, by, *link, next, away, queue)?;
    }
    Ok(())
}

fn look_along(
    wiring: &Wiring,
    by: &LinkSet,
    link: LinkId,
    next: u16,
    away: &mut [u16],
    queue: &mut VecDeque<NodeId>,
) -> Result<(), NoMemory>
    requires link { link.0 < length wiring.now.links }
    requires links { length by.now ≡ length wiring.now.links }
    requires size { length away.old ≡ wiring.now.nodes }
    ensures { OnOk result (LooksAlong wiring.now (has by.now) link.0 next away.old queue.old.items away.new queue.new.items) }
{
    let tail = wiring.tail(link);
    if by.has(link) && wiring.is_half(tail) && next < entry(away, tail) {
        queue.push_back(tail)?;
        away[usize::from(tail.0)] = next;
    }
    Ok(())
}

pub fn entry(away: &[u16], node: NodeId) -> u16
    requires { node.0 < length away.now }
    ensures { result ≡ away_of away.now node.0 }
{
    away[usize::from(node.0)]
}
