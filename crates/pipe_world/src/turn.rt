// Whose turn it is in an event: a node acts, or no node does anything.
ghost use Rattle.std.specs.Prelude.{◌≡◌, ◌<◌, List, IfOk, IfSome, MatchOption, length};
ghost use Rattle.std.specs.Option.{option_map};
ghost use Rattle.pipe_graph.specs.Graph.{Graph, IsGraph};
ghost use Rattle.pipe_model.specs.declared.record.Record.{Record};
ghost use Rattle.pipe_model.specs.Event.{IsOfGraph};
ghost use Rattle.pipe_world.specs.Turn.{ActsAt, IsFound, IsItem, IsOfNobody, IsTurn, ReachesKnown, IsUndecided};
ghost use Rattle.pipe_world.specs.World.{Keeps};

use crate::node::NodeState;
use pipe_base::{Addressed, LinkId, NoMemory, NodeId, Outcome, Packet};
use pipe_model::{Event, Took};
use pipe_net::Queues;
use pipe_topo::Topology;

/// What becomes of an event.
#[derive(Drop)]
pub enum Turn {
    /// No node does anything.
    Passes { took: Took, outcome: Outcome },
    /// The node acts, and takes this.
    Acts { id: NodeId, took: Took },
}

/// Whose turn it is: nobody's where nothing waits at the place of the event, where the acting node has crashed, and where no
/// node acts. What is taken stays where it waits.
pub fn whose_turn(
    topology: &Topology,
    nodes: &[NodeState],
    queues: &mut Queues,
    event: &Event,
) -> Result<Turn, NoMemory>
    requires keeps { (past : List Record) × Keeps topology.now nodes.now queues.old past }
    requires event { IsOfGraph topology.now event.now }
    requires undecided { IsUndecided event.now }
    ensures turn { IfOk result (λ turn. IsTurn topology.now nodes.now queues.old event.now turn) }
    ensures same { queues.new ≡ queues.old }
{
    let Some(took) = item(queues, event)? else {
        return Ok(idle(Outcome::NoItem));
    };
    match acting_node(topology, event, &took) {
        None => Ok(Turn::Passes {
            took,
            outcome: Outcome::Ok,
        }),
        Some(id) if nodes[id.0 as usize].crashed => Ok(idle(Outcome::Crashed)),
        Some(id) => Ok(Turn::Acts { id, took }),
    }
}

/// Nothing happens.
fn idle(outcome: Outcome) -> Turn
    ensures { result ≡ Turn.Passes Took.Nothing outcome }
{
    Turn::Passes {
        took: Took::Nothing,
        outcome,
    }
}

/// A copy of what the event takes. None where nothing waits at the place that the event names, if it names one.
fn item(queues: &mut Queues, event: &Event) -> Result<Option<Took>, NoMemory>
    requires links { (graph : Graph) × (length queues.old.lines ≡ length graph.links) × IsOfGraph graph event.now }
    ensures found { IfOk result (IsFound queues.old event.now) }
    ensures same { queues.new ≡ queues.old }
{
    match event {
        Event::Take { link, place, .. } => Ok(packet_on(*link, queues.take(*link, *place, true)?)),
        Event::ControlTake { place, .. } => Ok(message(queues.take_control(*place, true)?)),
        Event::Lose { link, place } if *place >= queues.waiting(*link) => Ok(None),
        Event::ControlLose { place } if *place >= queues.waiting_control() => Ok(None),
        _ => Ok(Some(Took::Nothing)),
    }
}

/// What takes a packet from a link, where there is one.
fn packet_on(link: LinkId, packet: Option<Packet>) -> Option<Took>
    ensures { result ≡ option_map (Took.Link link) packet }
{
    let packet = packet?;
    Some(Took::Link { link, packet })
}

/// What takes a control message, where there is one.
fn message(addressed: Option<Addressed>) -> Option<Took>
    ensures { result ≡ option_map Took.Message addressed }
{
    let addressed = addressed?;
    Some(Took::Message { addressed })
}

/// The node that acts in an event, or None where nobody does.
fn acting_node(topology: &Topology, event: &Event, took: &Took) -> Option<NodeId>
    requires graph { IsGraph topology.now }
    requires event { IsOfGraph topology.now event.now }
    requires undecided { IsUndecided event.now }
    requires item { IsItem event.now took.now }
    requires known { ReachesKnown topology.now took.now }
    ensures acts { MatchOption result (IsOfNobody event.now took.now) (λ id. ActsAt topology.now id event.now took.now) }
    ensures known { IfSome result (λ id. id.0 < topology.now.nodes) }
{
    pipe_model::acting_node(topology.ends(), event, took)
}
