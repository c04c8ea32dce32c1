// Who reaches whom by one set of links: found once, and looked up from then on.
ghost use Rattle.std.specs.Prelude.{◌≡◌, ℕ, ◌<◌, ◌≤◌, length, IfOk};
ghost use Rattle.std.specs.List.{list_any};
ghost use Rattle.pipe_graph.specs.Graph.{outs_of};
ghost use Rattle.pipe_graph.specs.Reach.{reaches};
ghost use Rattle.pipe_topo.specs.Sets.{has};
ghost use Rattle.pipe_topo.specs.Walk.{leads_near};
ghost use Rattle.pipe_graph.specs.Doomed.{are_partners};
ghost use Rattle.pipe_failtime.specs.Filled.{IsFilled};
ghost use Rattle.pipe_failtime.specs.Reaching.{IsReachTable};
ghost use Rattle.pipe_base.specs.Limits.{most_hosts};

use pipe_base::{HostId, LinkId, NoMemory, NodeId};
use pipe_topo::{Distances, FAR, HostSet, LinkSet, Topology};
use std::alloc::Global;
use std::marker::Model;

// For each host the set of the hosts that reach it.
#[derive(Drop)]
pub struct Reach<'a> {
    topology: &'a Topology,
    by: &'a LinkSet,
    reachers: Vec<HostSet>,
}

impl<'a> Model for Reach<'a> {
    ghost use Rattle.pipe_failtime.specs.Reaching.{IsReachTable, Reaching};

    ghost Value = { Reaching };

    ghost view = { λ r. record { graph = r.topology.now; by = r.by.now } };

    ghost invariant = { λ r. IsReachTable (record { graph = r.topology.now; by = r.by.now }) r.reachers.items };
}

impl<'a> Reach<'a> {
    pub fn new(
        alloc: Global,
        topology: &'a Topology,
        by: &'a LinkSet,
    ) -> Result<Reach<'a>, NoMemory>
        requires { length by.now ≡ length topology.now.links }
        ensures { IfOk result (λ reach. reach ≡ record { graph = topology.now; by = by.now }) }
    {
        let reachers = reach_table(alloc, topology, by)?;
        Ok(Reach {
            topology,
            by,
            reachers,
        })
    }

    pub fn hosts(&self) -> u16
        ensures value { result ≡ self.now.graph.hosts }
        ensures few { result ≤ most_hosts }
    {
        self.topology.hosts()
    }

    pub fn reaches(&self, a: u16, b: u16) -> bool
        requires a { a < self.now.graph.hosts }
        requires b { b < self.now.graph.hosts }
        ensures { result ≡ reaches self.now.graph (has self.now.by) a b }
    {
        self.reachers[usize::from(b)].has(HostId(a))
    }

    pub fn are_partners(&self, a: u16, b: u16) -> bool
        requires a { a < self.now.graph.hosts }
        requires b { b < self.now.graph.hosts }
        ensures { result ≡ are_partners self.now.graph (has self.now.by) a b }
    {
        self.reaches(a, b) && self.reaches(b, a)
    }
}

fn reach_table(alloc: Global, topology: &Topology, by: &LinkSet) -> Result<Vec<HostSet>, NoMemory>
    requires { length by.now ≡ length topology.now.links }
    ensures { IfOk result (λ table. IsReachTable (record { graph = topology.now; by = by.now }) table.items) }
{
    let mut table = Vec::new(alloc);
    for host in 0..topology.hosts() {
        table.push(reachers(alloc, topology, by, NodeId(host))?)?;
    }
    Ok(table)
}

// The hosts that reach the node by the set.
pub fn reachers(
    alloc: Global,
    topology: &Topology,
    by: &LinkSet,
    node: NodeId,
) -> Result<HostSet, NoMemory>
    requires links { length by.now ≡ length topology.now.links }
    requires node { node.0 < topology.now.nodes }
    ensures { IfOk result (λ set. IsFilled set 64 (λ host. reaches topology.now (has by.now) host node.0) topology.now.hosts) }
{
    let away = Distances::to(alloc, topology, node, by)?;
    let mut reachers = HostSet::none();
    for host in 0..topology.hosts() {
        if leads_on(topology, by, NodeId(host), &away) {
            reachers.insert(HostId(host));
        }
    }
    Ok(reachers)
}

// A link of the set leads from the node to one that is not far.
fn leads_on(topology: &Topology, by: &LinkSet, node: NodeId, away: &Distances) -> bool
    requires links { length by.now ≡ length topology.now.links }
    requires node { node.0 < topology.now.nodes }
    requires size { length away.now ≡ topology.now.nodes }
    ensures { result ≡ list_any (λ l. leads_near topology.now (has by.now) away.now l.0) (outs_of topology.now node.0) }
{
    topology
        .outs(node)
        .iter()
        .any(|link| leads_near(topology, by, *link, away))
}

fn leads_near(topology: &Topology, by: &LinkSet, link: LinkId, away: &Distances) -> bool
    requires links { length by.now ≡ length topology.now.links }
    requires link { link.0 < length topology.now.links }
    requires size { length away.now ≡ topology.now.nodes }
    ensures { result ≡ leads_near topology.now (has by.now) away.now link.0 }
{
    by.has(link) && away.of(topology.head(link)) < FAR
}
