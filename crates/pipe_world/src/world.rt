// The world: a network, what its nodes keep, what waits, and all that happened.
ghost use Rattle.std.specs.Prelude.{◌≡◌, ◌<◌, ◌≤◌, ℕ, List, [], true, IfErr, IfOk, OnOk, OnErr, length, map, reverse, slice_index_or};
ghost use Rattle.pipe_model.specs.Event.{IsOfGraph};
ghost use Rattle.pipe_graph.specs.Graph.{Graph, IsGraph, is_half};
ghost use Rattle.pipe_base.specs.Limits.{most_items};
ghost use Rattle.pipe_graph.specs.Reach.{JoinsAllHosts};
ghost use Rattle.pipe_model.specs.Items.{Overfills, items_of};
ghost use Rattle.pipe_model.specs.Outcome.{has_crashed};
ghost use Rattle.pipe_model.specs.OrderedRun.{IsOrderedRun};
ghost use Rattle.pipe_model.specs.Run.{event_of};
ghost use Rattle.pipe_model.specs.Waiting.{waiting_control, waiting_on};
ghost use Rattle.pipe_world.specs.declared.node.NodeState.{NodeState};
ghost use Rattle.pipe_model.specs.declared.record.Record.{Record};
ghost use Rattle.pipe_control.specs.Known as control;
ghost use Rattle.pipe_model.specs.Acting.{own};
ghost use Rattle.pipe_model.specs.Controller.{view};
ghost use Rattle.pipe_host.specs.Host as hosts;
ghost use Rattle.pipe_switch.specs.Half as halves;
ghost use Rattle.pipe_world.specs.Node as node;
ghost use Rattle.pipe_world.specs.World.{Extends, HasHalf, HasHost};

use crate::event::run_event;
use crate::fault::StepFault;
use crate::history::History;
use crate::node::{Node, NodeState};
use pipe_base::{HostId, LinkId, NoMemory, NodeId};
use pipe_control::Controller;
use pipe_host::Host;
use pipe_model::{Event, Trace};
use pipe_net::Queues;
use pipe_switch::Half;
use pipe_topo::Topology;
use std::alloc::Global;
use std::marker::Model;

/// A network that runs a schedule: one record per event, each proved to be what the rules say.
#[derive(Drop)]
pub struct World {
    topology: Topology,
    nodes: Vec<NodeState>,
    queues: Queues,
    controller: Controller,
    history: History,
}

impl Model for World {
    ghost use Rattle.pipe_world.specs.World.{GraphAndTrace, RunsFor};

    ghost Value = { GraphAndTrace };

    ghost view = { λ w. record { graph = w.topology; trace = w.history } };

    ghost invariant = { λ w. RunsFor w.topology w.nodes.items w.queues w.controller w.history };
}

impl World {
    /// A network to which nothing has happened.
    pub fn new(alloc: Global, topology: Topology) -> Result<World, NoMemory>
        ensures { IfOk result (λ world. world ≡ record { graph = topology; trace = [] }) }
    {
        let nodes = fresh_nodes(alloc, &topology, topology.nodes())?;
        let queues = Queues::new(alloc, topology.links())?;
        let controller = Controller::new(alloc, &topology)?;
        Ok(World {
            topology,
            nodes,
            queues,
            controller,
            history: History::new(alloc),
        })
    }

    /// Runs one event and appends its record. `Full` is answered only where that would put too much, and the event runs only where
    /// it would not.
    pub fn step(&mut self, event: Event) -> Result<(), StepFault>
        requires event { IsOfGraph self.old.graph event }
        ensures ok { OnOk result (Extends self.old self.new event) }
        ensures within { OnOk result (items_of self.new.trace ≤ most_items) }
        ensures full { IfErr result (λ fault. (items : ℕ) → fault ≡ StepFault.Full items
            → Overfills self.old.graph self.old.trace event items) }
        ensures err { OnErr result (self.new ≡ self.old) }
    {
        run_event(
            &self.topology,
            &mut self.nodes,
            &mut self.queues,
            &mut self.controller,
            &mut self.history,
            event,
        )
    }

    /// All that happened, the oldest record first. It is the run of its events, and the channel keeps its promises in it.
    pub fn trace(&self) -> &Trace
        ensures trace { result.now ≡ self.now.trace }
        ensures joined { JoinsAllHosts self.now.graph }
        ensures run { IsOrderedRun self.now.graph (map event_of self.now.trace) self.now.trace }
    {
        self.history.trace()
    }

    /// The trace by itself.
    pub fn into_trace(self) -> Trace
        ensures trace { result ≡ self.trace }
        ensures joined { JoinsAllHosts self.graph }
        ensures run { IsOrderedRun self.graph (map event_of result) result }
    {
        self.history.into_trace()
    }

    pub fn topology(&self) -> &Topology
        ensures { result.now ≡ self.now.graph }
    {
        &self.topology
    }

    /// A host, as it stands after all that happened.
    pub fn host(&self, host: HostId) -> &Host
        requires { host.0 < self.now.graph.hosts }
        ensures { hosts.Stands self.now.graph host.0 (own self.now.graph host.0 (reverse self.now.trace)) result.now }
    {
        host_in(&self.nodes, host)
    }

    /// A half of a switch, as it stands after all that happened.
    pub fn half(&self, node: NodeId) -> &Half
        requires node { node.0 < self.now.graph.nodes }
        requires half { is_half self.now.graph node.0 ≡ true }
        ensures { halves.Stands self.now.graph node.0 (own self.now.graph node.0 (reverse self.now.trace)) result.now }
    {
        half_in(&self.nodes, node)
    }

    /// The controller, as it stands after all that happened.
    pub fn controller(&self) -> &Controller
        ensures { control.Stands self.now.graph (view self.now.graph (reverse self.now.trace)) result.now }
    {
        &self.controller
    }

    /// How many packets and control messages were put so far.
    pub fn items(&self) -> u32
        ensures { result ≡ items_of self.now.trace }
    {
        self.history.items()
    }

    /// How many packets wait on a link.
    pub fn waiting(&self, link: LinkId) -> u32
        requires { link.0 < length self.now.graph.links }
        ensures { result ≡ length (waiting_on link.0 (reverse self.now.trace)) }
    {
        self.queues.waiting(link)
    }

    /// How many control messages wait.
    pub fn waiting_control(&self) -> u32
        ensures { result ≡ length (waiting_control (reverse self.now.trace)) }
    {
        self.queues.waiting_control()
    }

    /// The node has crashed: nothing happens at it any more.
    pub fn crashed(&self, node: NodeId) -> bool
        requires { node.0 < self.now.graph.nodes }
        ensures { result ≡ has_crashed node.0 (reverse self.now.trace) }
    {
        self.nodes[usize::from(node.0)].crashed
    }
}

fn host_in(nodes: &[NodeState], host: HostId) -> &Host
    requires { (graph : Graph) × (past : List Record) × HasHost graph nodes.now past host.0 }
    ensures { (graph : Graph) (past : List Record) → HasHost graph nodes.now past host.0
        → hosts.Stands graph host.0 (own graph host.0 past) result.now }
{
    match &nodes[usize::from(host.0)].node {
        Node::Host(host) => host,
        Node::Half(_) => unreachable!(),
    }
}

fn half_in(nodes: &[NodeState], node: NodeId) -> &Half
    requires { (graph : Graph) × (past : List Record) × HasHalf graph nodes.now past node.0 }
    ensures { (graph : Graph) (past : List Record) → HasHalf graph nodes.now past node.0
        → halves.Stands graph node.0 (own graph node.0 past) result.now }
{
    match &nodes[usize::from(node.0)].node {
        Node::Host(_) => unreachable!(),
        Node::Half(half) => half,
    }
}

/// A host or a half for each number, to which nothing has happened.
fn fresh_nodes(alloc: Global, topology: &Topology, count: u16) -> Result<Vec<NodeState>, NoMemory>
    requires { count ≡ topology.now.nodes }
    ensures count { IfOk result (λ nodes. length nodes.items ≡ topology.now.nodes) }
    ensures stand { IfOk result (λ nodes. (n : ℕ) (d : NodeState) → n < topology.now.nodes
        → node.StandsIn topology.now n [] (slice_index_or nodes.items n d)) }
{
    let mut nodes = Vec::new(alloc);
    'nodes: for id in 0..count {
        let node = fresh_node(alloc, topology, id)?;
        nodes.push(NodeState {
            node,
            crashed: false,
        })?;
    }
    Ok(nodes)
}

fn fresh_node(alloc: Global, topology: &Topology, id: u16) -> Result<Node, NoMemory>
    requires { id < topology.now.nodes }
    ensures { IfOk result (node.Stands topology.now id []) }
{
    if topology.is_host(NodeId(id)) {
        Ok(Node::Host(Host::new(alloc, topology, HostId(id))?))
    } else {
        Ok(Node::Half(Half::new(alloc, topology, NodeId(id))?))
    }
}
