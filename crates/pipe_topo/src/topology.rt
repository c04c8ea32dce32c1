// A network as a graph: nodes, and links with a tail and a head each.
ghost use Rattle.std.specs.Prelude.{◌≡◌, ℕ, ◌+◌, ◌*◌, ◌<◌, ◌≤◌, length, All, IfOk};
ghost use Rattle.pipe_graph.specs.Graph.{Graph, IsGraph, head_of, ins_of, is_half, is_host, outs_of, tail_of};
ghost use Rattle.pipe_graph.specs.Reach.{JoinsAllHosts};
ghost use Rattle.pipe_base.specs.Limits.{most_hosts, most_switches, most_nodes, most_links, last_stamp};

use crate::wiring::Wiring;
use pipe_base::{Link, LinkId, NoMemory, NodeId, Ts};
use std::marker::Model;

/// The nodes are first the hosts, then for each switch its up half and its down half. Cable c has the links `2 * c`,
/// which goes up, and `2 * c + 1`, which goes down; after these each switch has a loop link from its up half to its
/// down half. There is a host, any two hosts reach each other, and each node has an in-link.
#[derive(Drop)]
pub struct Topology {
    pub(crate) wiring: Wiring,
}

impl Model for Topology {
    ghost use Rattle.pipe_graph.specs.Graph.{Graph};
    ghost use Rattle.pipe_topo.specs.Fed.{IsFed};

    ghost Value = { Graph };

    ghost view = { λ t. t.wiring };

    ghost invariant = { λ t. IsFed t.wiring };
}

impl Topology {
    pub fn hosts(&self) -> u16
        ensures value { result ≡ self.now.hosts }
        ensures some { 0 < result }
        ensures few { result ≤ most_hosts }
        ensures are_nodes { result ≤ self.now.nodes }
        ensures joined { JoinsAllHosts self.now }
    {
        self.wiring.hosts()
    }

    pub fn switches(&self) -> u16
        ensures value { self.now.nodes ≡ self.now.hosts + 2 * result }
        ensures few { result ≤ most_switches }
    {
        self.wiring.switches()
    }

    pub fn nodes(&self) -> u16
        ensures value { result ≡ self.now.nodes }
        ensures few { result ≤ most_nodes }
        ensures graph { IsGraph self.now }
    {
        self.wiring.nodes()
    }

    pub fn links(&self) -> u16
        ensures value { result ≡ length self.now.links }
        ensures few { result ≤ most_links }
    {
        self.wiring.links()
    }

    /// Where each link begins and ends, in the order of their numbers.
    pub fn ends(&self) -> &[Link]
        ensures { result.now ≡ self.now.links }
    {
        self.wiring.ends()
    }

    /// Where the link begins.
    pub fn tail(&self, link: LinkId) -> NodeId
        requires { link.0 < length self.now.links }
        ensures value { result.0 ≡ tail_of self.now link.0 }
        ensures known { result.0 < self.now.nodes }
    {
        self.wiring.tail(link)
    }

    /// Where the link ends.
    pub fn head(&self, link: LinkId) -> NodeId
        requires { link.0 < length self.now.links }
        ensures value { result.0 ≡ head_of self.now link.0 }
        ensures known { result.0 < self.now.nodes }
    {
        self.wiring.head(link)
    }

    /// The links that end at the node, in rising number. There is one at least.
    pub fn ins(&self, node: NodeId) -> &[LinkId]
        requires { node.0 < self.now.nodes }
        ensures value { result.now ≡ ins_of self.now node.0 }
        ensures some { 0 < length result.now }
        ensures known { All (λ l. l.0 < length self.now.links) result.now }
    {
        self.wiring.ins(node)
    }

    /// The links that begin at the node, in rising number.
    pub fn outs(&self, node: NodeId) -> &[LinkId]
        requires { node.0 < self.now.nodes }
        ensures value { result.now ≡ outs_of self.now node.0 }
        ensures known { All (λ l. l.0 < length self.now.links) result.now }
    {
        self.wiring.outs(node)
    }

    pub fn patience(&self) -> Ts
        ensures { result.0 ≡ self.now.patience }
    {
        self.wiring.patience()
    }

    /// The last reading of a clock, and the last stamp. A barrier or a next timestamp may be one more.
    pub fn top(&self) -> Ts
        ensures value { result.0 ≡ self.now.top }
        ensures short { result.0 ≤ last_stamp }
    {
        self.wiring.top()
    }

    pub fn is_host(&self, node: NodeId) -> bool
        ensures { result ≡ is_host self.now node.0 }
    {
        node.0 < self.wiring.hosts()
    }

    /// The node is a half of a switch, and no host.
    pub fn is_half(&self, node: NodeId) -> bool
        ensures { result ≡ is_half self.now node.0 }
    {
        self.wiring.is_half(node)
    }

    pub fn try_clone(&self) -> Result<Topology, NoMemory>
        ensures { IfOk result (λ copy. copy ≡ self.now) }
    {
        let wiring = self.wiring.try_clone()?;
        Ok(Topology { wiring })
    }
}
