// The links out of a node that begin a shortest path to a receiver.
ghost use Rattle.std.specs.Prelude.{◌≡◌, ℕ, ◌<◌, ◌≤◌, length, filter, IfOk};
ghost use Rattle.pipe_graph.specs.Graph.{outs_of};
ghost use Rattle.pipe_graph.specs.ShortestRoute.{firsts_by_host, firsts_of};
ghost use Rattle.pipe_topo.specs.Sets.{has, lacks};
ghost use Rattle.pipe_route.specs.Firsts.{IsLeast, is_first, nearer_of};

use pipe_base::{LinkId, List, NoMemory, NodeId};
use pipe_topo::{Distances, FAR, LinkSet, Topology};
use std::alloc::Global;

// For each host the links that begin a shortest path to it by the links that are not dropped.
pub fn firsts_by_host(
    alloc: Global,
    topology: &Topology,
    node: NodeId,
    dropped: &LinkSet,
) -> Result<Vec<List<LinkId>>, NoMemory>
    requires node { node.0 < topology.now.nodes }
    requires links { length dropped.now ≡ length topology.now.links }
    ensures { IfOk result (λ links. links.items ≡ firsts_by_host topology.now (lacks dropped.now) node.0) }
{
    let kept = dropped.rest()?;
    let mut links = Vec::new(alloc);
    for host in 0..topology.hosts() {
        links.push(firsts_of(alloc, topology, node, NodeId(host), &kept)?)?;
    }
    Ok(links)
}

fn firsts_of(
    alloc: Global,
    topology: &Topology,
    node: NodeId,
    dst: NodeId,
    by: &LinkSet,
) -> Result<List<LinkId>, NoMemory>
    requires node { node.0 < topology.now.nodes }
    requires dst { dst.0 < topology.now.nodes }
    requires links { length by.now ≡ length topology.now.links }
    ensures { IfOk result (λ links. links ≡ firsts_of topology.now (has by.now) node.0 dst.0) }
{
    let away = Distances::to(alloc, topology, dst, by)?;
    let outs = topology.outs(node);
    let nearest = least_distance(topology, node, by, &away);
    let mut firsts = List::new(alloc);
    for link in outs {
        if is_first(topology, by, *link, nearest, &away) {
            firsts.push(*link)?;
        }
    }
    Ok(firsts)
}

// The least distance of a node to which a link of the set leads, or `FAR`.
fn least_distance(topology: &Topology, node: NodeId, by: &LinkSet, away: &Distances) -> u16
    requires node { node.0 < topology.now.nodes }
    requires links { length by.now ≡ length topology.now.links }
    requires size { length away.now ≡ topology.now.nodes }
    ensures { IsLeast topology.now (has by.now) away.now node.0 (outs_of topology.now node.0) result }
{
    let mut nearest = FAR;
    for link in topology.outs(node) {
        nearest = nearer(topology, by, *link, nearest, away);
    }
    nearest
}

fn nearer(topology: &Topology, by: &LinkSet, link: LinkId, nearest: u16, away: &Distances) -> u16
    requires link { link.0 < length topology.now.links }
    requires links { length by.now ≡ length topology.now.links }
    requires size { length away.now ≡ topology.now.nodes }
    ensures { result ≡ nearer_of topology.now (has by.now) away.now nearest link.0 }
{
    if by.has(link) {
        nearest.min(away.of(topology.head(link)))
    } else {
        nearest
    }
}

fn is_first(topology: &Topology, by: &LinkSet, link: LinkId, nearest: u16, away: &Distances) -> bool
    requires link { link.0 < length topology.now.links }
    requires links { length by.now ≡ length topology.now.links }
    requires size { length away.now ≡ topology.now.nodes }
    ensures { result ≡ is_first topology.now (has by.now) away.now nearest link.0 }
{
    by.has(link) && away.of(topology.head(link)) == nearest && nearest < FAR
}
