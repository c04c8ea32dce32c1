// Which node acts in an event, and whether anything happened.
ghost use Rattle.std.specs.Prelude.{◌≡◌, ℕ, slice_index_or};
ghost use Rattle.pipe_graph.specs.Graph.{Graph, no_link};
ghost use Rattle.pipe_model.specs.Acting.{acts, is_idle, is_node, is_own, reached};

use crate::{Event, Record, Took};
use pipe_base::{Link, LinkId, NodeId, Outcome, To};

/// Whether nothing happened.
pub fn is_idle(outcome: Outcome) -> bool
    ensures { result ≡ is_idle outcome }
{
    matches!(outcome, Outcome::Crashed | Outcome::NoItem)
}

/// The node that acts in an event which takes this, in a network with these links. None where no node does.
pub fn acting_node(links: &[Link], event: &Event, took: &Took) -> Option<NodeId>
    ensures { (graph : Graph) (n : ℕ) → graph.links ≡ links.now → acts graph n event.now took.now ≡ is_node result n }
{
    match event {
        Event::Send { host, .. } => Some(NodeId(host.0)),
        Event::Tick { node, .. } => Some(*node),
        Event::Take { link, .. } => Some(head(links, *link)),
        Event::ControlTake { .. } => receiver(took),
        Event::Crash { node } => Some(*node),
        Event::Lose { .. } => None,
        Event::ControlLose { .. } => None,
        Event::Decide => None,
        Event::Cut { .. } => None,
    }
}

/// The node whose own record this is, in a network with these links. None where it is no node's.
pub fn actor(links: &[Link], made: &Record) -> Option<NodeId>
    ensures { (graph : Graph) (n : ℕ) → graph.links ≡ links.now → is_own graph n made.now ≡ is_node result n }
{
    if is_idle(made.step.outcome()) {
        return None;
    }
    acting_node(links, &made.event, &made.took)
}

fn head(links: &[Link], link: LinkId) -> NodeId
    ensures { result ≡ (slice_index_or links.now link.0 no_link).head }
{
    match links.get(usize::from(link.0)) {
        Some(link) => link.head,
        None => NodeId(0),
    }
}

fn receiver(took: &Took) -> Option<NodeId>
    ensures { (n : ℕ) → reached n took.now ≡ is_node result n }
{
    match took {
        Took::Message { addressed } => match addressed.to {
            To::Node(node) => Some(node),
            To::Controller => None,
        },
        Took::Nothing => None,
        Took::Link { .. } => None,
    }
}
