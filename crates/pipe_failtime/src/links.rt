// Links that no kept host can use.
ghost use Rattle.std.specs.Prelude.{◌≡◌, ℕ, ◌<◌, ◌==◌, ◌&&◌, ◌||◌, length, not, IfOk};
ghost use Rattle.pipe_graph.specs.Graph.{is_half, tail_of};
ghost use Rattle.pipe_topo.specs.Reports.{report_of};
ghost use Rattle.pipe_topo.specs.Sets.{has};
ghost use Rattle.pipe_graph.specs.Reported.{unreported};
ghost use Rattle.pipe_graph.specs.Useless.{is_useless};
ghost use Rattle.pipe_failtime.specs.Fed.{is_fed_from};
ghost use Rattle.pipe_failtime.specs.Filled.{IsFilled};
ghost use Rattle.pipe_base.specs.Limits.{most_hosts};

use crate::reach::reachers;
use crate::reported::unreported;
use pipe_base::{HostId, LinkId, NoMemory, NodeId};
use pipe_topo::{HostSet, LinkSet, Reports, Topology};
use std::alloc::Global;

/// The live links without reports that no kept host feeds by such links.
pub fn useless(
    alloc: Global,
    topology: &Topology,
    live: &LinkSet,
    reports: &Reports,
    kept: &HostSet,
) -> Result<LinkSet, NoMemory>
    requires live { length live.now ≡ length topology.now.links }
    requires reports { length reports.now ≡ length topology.now.links }
    ensures size { IfOk result (λ set. length set ≡ length topology.now.links) }
    ensures value { IfOk result (λ set. has set ≡ is_useless topology.now (unreported (has live.now) (report_of reports.now)) (has kept.now)) }
{
    let by = unreported(alloc, topology, live, reports)?;
    useless_by(alloc, topology, &by, kept)
}

#[tactic(auto, using(crate::proofs::FilledLaws::filled_none, crate::proofs::FilledLaws::filled_in, crate::proofs::FilledLaws::filled_out))]
fn useless_by(
    alloc: Global,
    topology: &Topology,
    by: &LinkSet,
    kept: &HostSet,
) -> Result<LinkSet, NoMemory>
    requires { length by.now ≡ length topology.now.links }
    ensures size { IfOk result (λ set. length set ≡ length topology.now.links) }
    ensures value { IfOk result (λ set. has set ≡ is_useless topology.now (has by.now) (has kept.now)) }
{
    let fed = fed_nodes(alloc, topology, by, kept)?;
    let mut set = LinkSet::none(alloc, topology.links())?;
    for link in 0..topology.links() {
        if is_useless(topology, by, &fed, LinkId(link)) {
            set.insert(LinkId(link));
        }
    }
    Ok(set)
}

// The link is of the set, and its tail is none of the nodes that are fed.
fn is_useless(topology: &Topology, by: &LinkSet, fed: &[bool], link: LinkId) -> bool
    requires links { length by.now ≡ length topology.now.links }
    requires link { link.0 < length topology.now.links }
    requires nodes { length fed.now ≡ topology.now.nodes }
    ensures value { result ≡ (has by.now link.0 && not (has fed.now (tail_of topology.now link.0))) }
    ensures tail { tail_of topology.now link.0 < topology.now.nodes }
{
    let tail = topology.tail(link);
    by.has(link) && !fed[usize::from(tail.0)]
}

// Whether a kept host feeds the links out of each node.
#[tactic(auto, using(crate::proofs::FilledLaws::filled_none, crate::proofs::FilledLaws::filled_in, crate::proofs::FilledLaws::filled_out))]
fn fed_nodes(
    alloc: Global,
    topology: &Topology,
    by: &LinkSet,
    kept: &HostSet,
) -> Result<Vec<bool>, NoMemory>
    requires { length by.now ≡ length topology.now.links }
    ensures { IfOk result (λ fed. IsFilled fed.items topology.now.nodes (is_fed_from topology.now (has by.now) (has kept.now)) topology.now.nodes) }
{
    let mut fed = vec![in alloc; false; usize::from(topology.nodes())]?;
    for node in 0..topology.nodes() {
        if is_fed_from(alloc, topology, by, kept, NodeId(node))? {
            fed[usize::from(node)] = true;
        }
    }
    Ok(fed)
}

// A kept host feeds the links out of the node.
#[tactic(auto, using(crate::proofs::TestLaws::none_more))]
fn is_fed_from(
    alloc: Global,
    topology: &Topology,
    by: &LinkSet,
    kept: &HostSet,
    node: NodeId,
) -> Result<bool, NoMemory>
    requires links { length by.now ≡ length topology.now.links }
    requires node { node.0 < topology.now.nodes }
    ensures { IfOk result (λ yes. yes ≡ is_fed_from topology.now (has by.now) (has kept.now) node.0) }
{
    let reachers = reachers(alloc, topology, by, node)?;
    for host in 0..topology.hosts() {
        if kept.has(HostId(host)) && is_at(topology, node, &reachers, host) {
            return Ok(true);
        }
    }
    Ok(false)
}

// The host is the node, or is one of those that reach it, and that is a half.
fn is_at(topology: &Topology, node: NodeId, reachers: &HostSet, host: u16) -> bool
    requires { host < most_hosts }
    ensures { result ≡ ((host == node.0) || (is_half topology.now node.0 && has reachers.now host)) }
{
    host == node.0 || topology.is_half(node) && reachers.has(HostId(host))
}
