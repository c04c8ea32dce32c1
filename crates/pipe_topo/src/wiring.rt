// The links of a network and its tables of the links at each node, before it is known who reaches whom.
ghost use Rattle.std.specs.Prelude.{◌≡◌, ℕ, ◌+◌, ◌*◌, ◌<◌, ◌≤◌, length, All, IfOk};
ghost use Rattle.pipe_graph.specs.Graph.{Graph, IsGraph, head_of, ins_of, is_half, outs_of, tail_of};
ghost use Rattle.pipe_base.specs.Limits.{most_hosts, most_switches, most_nodes, most_links, last_stamp};

use pipe_base::{Link, LinkId, List, NoMemory, NodeId, Ts};
use std::marker::Model;

// What a topology is made of. Its numbers are those of a `Topology`, whose methods say the same.
#[derive(Clone, Drop)]
pub struct Wiring {
    pub(crate) hosts: u16,
    pub(crate) switches: u16,
    pub(crate) links: Vec<Link>,
    pub(crate) ins: Vec<List<LinkId>>,
    pub(crate) outs: Vec<List<LinkId>>,
    pub(crate) patience: Ts,
    pub(crate) top: Ts,
}

impl Model for Wiring {
    ghost use Rattle.pipe_graph.specs.Graph.{Graph};
    ghost use Rattle.pipe_topo.specs.Plan.{network_of};
    ghost use Rattle.pipe_topo.specs.Tables.{HasTables};

    ghost Value = { Graph };

    ghost view = { λ t. network_of t.hosts t.switches t.links.items t.patience t.top };

    ghost invariant = { λ t. HasTables (network_of t.hosts t.switches t.links.items t.patience t.top) t.switches t.ins.items t.outs.items };
}

impl Wiring {
    pub fn hosts(&self) -> u16
        ensures value { result ≡ self.now.hosts }
        ensures few { result ≤ most_hosts }
        ensures are_nodes { result ≤ self.now.nodes }
    {
        self.hosts
    }

    pub fn switches(&self) -> u16
        ensures value { self.now.nodes ≡ self.now.hosts + 2 * result }
        ensures few { result ≤ most_switches }
    {
        self.switches
    }

    pub fn nodes(&self) -> u16
        ensures value { result ≡ self.now.nodes }
        ensures few { result ≤ most_nodes }
        ensures graph { IsGraph self.now }
    {
        self.hosts + 2 * self.switches
    }

    pub fn links(&self) -> u16
        ensures value { result ≡ length self.now.links }
        ensures few { result ≤ most_links }
    {
        self.links.len() as u16
    }

    pub fn ends(&self) -> &[Link]
        ensures { result.now ≡ self.now.links }
    {
        &self.links
    }

    pub fn tail(&self, link: LinkId) -> NodeId
        requires { link.0 < length self.now.links }
        ensures value { result.0 ≡ tail_of self.now link.0 }
        ensures known { result.0 < self.now.nodes }
    {
        self.links[usize::from(link.0)].tail
    }

    pub fn head(&self, link: LinkId) -> NodeId
        requires { link.0 < length self.now.links }
        ensures value { result.0 ≡ head_of self.now link.0 }
        ensures known { result.0 < self.now.nodes }
    {
        self.links[usize::from(link.0)].head
    }

    pub fn ins(&self, node: NodeId) -> &[LinkId]
        requires { node.0 < self.now.nodes }
        ensures value { result.now ≡ ins_of self.now node.0 }
        ensures known { All (λ l. l.0 < length self.now.links) result.now }
    {
        self.ins[usize::from(node.0)].as_slice()
    }

    pub fn outs(&self, node: NodeId) -> &[LinkId]
        requires { node.0 < self.now.nodes }
        ensures value { result.now ≡ outs_of self.now node.0 }
        ensures known { All (λ l. l.0 < length self.now.links) result.now }
    {
        self.outs[usize::from(node.0)].as_slice()
    }

    pub fn patience(&self) -> Ts
        ensures { result.0 ≡ self.now.patience }
    {
        self.patience
    }

    pub fn top(&self) -> Ts
        ensures value { result.0 ≡ self.now.top }
        ensures short { result.0 ≤ last_stamp }
    {
        self.top
    }

    pub fn is_half(&self, node: NodeId) -> bool
        ensures { result ≡ is_half self.now node.0 }
    {
        self.hosts <= node.0
    }

    pub fn try_clone(&self) -> Result<Wiring, NoMemory>
        ensures { IfOk result (λ copy. copy ≡ self.now) }
    {
        Ok(self.clone()?)
    }
}
