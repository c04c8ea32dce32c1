// What is kept for a node: a host or a half.
ghost use Rattle.std.specs.Prelude.{◌≡◌, ◌∷◌, ◌<◌, ◌≤◌, ℕ, Bool, List, true, length, IfOk, OnErr};
ghost use Rattle.pipe_base.specs.declared.name.HostId.{HostId};
ghost use Rattle.pipe_graph.specs.Graph.{Graph, ins_of, is_host};
ghost use Rattle.pipe_base.specs.Limits.{most_receivers};
ghost use Rattle.pipe_base.specs.Moment.{has_link};
ghost use Rattle.pipe_model.specs.Records.{told, sent, taken, ticked, crashed};
ghost use Rattle.pipe_model.specs.declared.record.Record.{Record as ARecord};
ghost use Rattle.pipe_model.specs.Acting.{ComesIn};
ghost use Rattle.pipe_model.specs.Run.{IsNodeStep};
ghost use Rattle.pipe_world.specs.Node.{Stands, StandsWith, Works};

use pipe_base::{
    Control, DestList, KeptStep, LinkId, NoMemory, NodeId, Outcome, Packet, Service, Ts,
};
use pipe_host::Host;
use pipe_model::{Record, Took};
use pipe_switch::Half;
use pipe_topo::Topology;

/// A host, or a half of a switch.
#[derive(Drop)]
pub enum Node {
    Host(Host),
    Half(Half),
}

/// What a world keeps of a node.
#[derive(Drop)]
pub struct NodeState {
    pub node: Node,
    /// The node has crashed: it acts no more.
    pub crashed: bool,
}

impl Node {
    /// Works out a send of a host. Of the node only the scattering that it begins is changed.
    pub fn work_send(
        &mut self,
        service: Service,
        now: Ts,
        dests: &DestList,
    ) -> Result<KeptStep, NoMemory>
        requires host { (graph : Graph) × (node : ℕ) × (own : List ARecord) × (is_host graph node ≡ true)
            × Stands graph node own self.old }
        requires some { 0 < length dests.now }
        requires few { length dests.now ≤ most_receivers }
        ensures ok { IfOk result (λ step. (graph : Graph) (host : HostId) (own : List ARecord)
            → Stands graph host.0 own self.old
            → Works graph host.0 own (sent host service now dests.now step) self.new) }
        ensures err { OnErr result (self.new ≡ self.old) }
    {
        match self {
            Node::Host(host) => host.work_send(service, now, dests),
            Node::Half(_) => unreachable!(),
        }
    }

    /// Works out a tick.
    pub fn work_tick(&self, now: Ts) -> Result<KeptStep, NoMemory>
        ensures { IfOk result (λ step. (graph : Graph) (node : NodeId) (own : List ARecord)
            → Stands graph node.0 own self.now
            → Works graph node.0 own (ticked node now step) self.now) }
    {
        match self {
            Node::Host(host) => host.work_tick(now),
            Node::Half(half) => half.work_tick(now),
        }
    }

    /// Works out the taking of a packet from a link into the node. Of the node only the message that it holds and the tombstones
    /// are changed.
    pub fn work_take(&mut self, link: LinkId, packet: &Packet) -> Result<KeptStep, NoMemory>
        ensures ok { IfOk result (λ step. (graph : Graph) (node : ℕ) (own : List ARecord) (place : ℕ) (keep : Bool)
            → Stands graph node own self.old
            → has_link link.0 (ins_of graph node) ≡ true
            → Works graph node own (taken link packet.now place keep step) self.new) }
        ensures err { OnErr result (self.new ≡ self.old) }
    {
        match self {
            Node::Host(host) => host.work_take(link, packet),
            Node::Half(half) => half.work_take(link, packet),
        }
    }

    /// Works out what a control message to the node does. Of the node only the failed hosts that it notes and the ways that will
    /// hold next are changed.
    pub fn work_control(
        &mut self,
        topology: &Topology,
        control: &Control,
    ) -> Result<KeptStep, NoMemory>
        requires stands { (node : ℕ) × (own : List ARecord) × Stands topology.now node own self.old }
        ensures ok { IfOk result (λ step. (node : NodeId) (own : List ARecord) (place : ℕ) (keep : Bool)
            → Stands topology.now node.0 own self.old
            → Works topology.now node.0 own (told node control.now place keep step) self.new) }
        ensures err { OnErr result (self.new ≡ self.old) }
    {
        match self {
            Node::Host(host) => host.work_control(topology, control),
            Node::Half(half) => half.work_control(topology, control),
        }
    }

    /// Works out a crash: the node does nothing in it.
    pub fn work_crash(&self) -> KeptStep
        ensures { (graph : Graph) (node : NodeId) (own : List ARecord) → Stands graph node.0 own self.now
            → Works graph node.0 own (crashed node result) self.now }
    {
        KeptStep::quiet(Outcome::Ok)
    }

    /// Takes over the record of a step that was worked out. Takes no memory.
    pub fn follow(&mut self, made: &Record)
        ensures { (graph : Graph) (node : ℕ) (own : List ARecord) → StandsWith graph node own made.now self.old
            → ComesIn graph node made.now.event → IsNodeStep graph node own made.now
            → Stands graph node (made.now ∷ own) self.new }
    {
        match self {
            Node::Host(host) => host.follow(made),
            Node::Half(half) => half.follow(made),
        }
    }

    /// Undoes what was held, noted, buried, begun or set aside for a step that was worked out and is refused. Takes no memory.
    pub fn undo(&mut self, made: &Record)
        ensures { (graph : Graph) (node : ℕ) (own : List ARecord) → StandsWith graph node own made.now self.old
            → IsNodeStep graph node own made.now → Stands graph node own self.new }
    {
        match self {
            Node::Host(host) => host.undo(made),
            Node::Half(half) => half.undo(),
        }
    }
}
