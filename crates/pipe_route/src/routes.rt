// The routes of one node.
ghost use Rattle.std.specs.Prelude.{◌≡◌, ◌<◌, length, IfOk, OnErr, OnOk};
ghost use Rattle.pipe_base.specs.Ways.{in_turn, picked};
ghost use Rattle.pipe_topo.specs.Sets.{lacks};
ghost use Rattle.pipe_route.specs.Routing.{routing_by};

use crate::firsts::firsts_by_host;
use pipe_base::{HostId, LinkId, List, NoMemory, NodeId, Router};
use pipe_topo::{LinkSet, Topology};
use std::alloc::Global;
use std::marker::Model;

/// Which links a packet may take from one node to each host: those that begin a shortest path by the links that are
/// not dropped. Equal ways take turns by sender and receiver.
#[derive(Clone, Drop)]
pub struct Routes {
    node: NodeId,
    links: Vec<List<LinkId>>,
}

impl Model for Routes {
    ghost use Rattle.pipe_route.specs.Routing.{Routing};

    ghost Value = { Routing };

    ghost view = { λ r. record { node = r.node.0; links = r.links.items } };
}

impl Routes {
    /// The routes of the node, with these links of the topology dropped.
    pub fn build(
        alloc: Global,
        topology: &Topology,
        node: NodeId,
        dropped: &LinkSet,
    ) -> Result<Routes, NoMemory>
        requires node { node.0 < topology.now.nodes }
        requires links { length dropped.now ≡ length topology.now.links }
        ensures { IfOk result (λ routes. routes ≡ routing_by topology.now (lacks dropped.now) node.0) }
    {
        Ok(Routes {
            node,
            links: firsts_by_host(alloc, topology, node, dropped)?,
        })
    }

    /// The same for other dropped links of the same topology.
    pub fn rebuild(&mut self, topology: &Topology, dropped: &LinkSet) -> Result<(), NoMemory>
        requires node { self.old.node < topology.now.nodes }
        requires links { length dropped.now ≡ length topology.now.links }
        ensures ok { OnOk result (self.new ≡ routing_by topology.now (lacks dropped.now) self.old.node) }
        ensures err { OnErr result (self.new ≡ self.old) }
    {
        let alloc = *self.links.allocator();
        self.links = firsts_by_host(alloc, topology, self.node, dropped)?;
        Ok(())
    }

    /// The node that these are the routes of.
    pub fn node(&self) -> NodeId
        ensures { result.0 ≡ self.now.node }
    {
        self.node
    }

    pub fn try_clone(&self) -> Result<Routes, NoMemory>
        ensures { IfOk result (λ copy. copy ≡ self.now) }
    {
        Ok(self.clone()?)
    }
}

impl Router for Routes {
    ghost use Rattle.std.specs.Prelude.{◌≡◌, ℕ, Bool};
    ghost use Rattle.pipe_graph.specs.Graph.{Graph};
    ghost use Rattle.pipe_graph.specs.ShortestRoute.{route_by};
    ghost use Rattle.pipe_base.specs.Ways.{picked};
    ghost use Rattle.pipe_route.specs.Routing.{routing_by};

    ghost links = { λ r. r.links };

    fn pick(&self, src: HostId, dst: HostId) -> Option<LinkId>
        ensures value { result ≡ picked self.now.links src.0 dst.0 }
        ensures route { (graph : Graph) (by : ℕ → Bool) → self.now ≡ routing_by graph by self.now.node
            → result ≡ route_by graph by self.now.node src.0 dst.0 }
    {
        picked(&self.links, src, dst)
    }
}

fn picked(links: &[List<LinkId>], src: HostId, dst: HostId) -> Option<LinkId>
    ensures { result ≡ picked links.now src.0 dst.0 }
{
    let listed = links.get(usize::from(dst.0))?;
    in_turn(listed, usize::from(src.0) + usize::from(dst.0))
}

// The links take turns.
fn in_turn(links: &List<LinkId>, turn: usize) -> Option<LinkId>
    ensures { result ≡ in_turn links.now turn }
{
    if links.is_empty() {
        return None;
    }
    links.get(turn % links.len()).copied()
}
