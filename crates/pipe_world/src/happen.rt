// One event of the world.
ghost use Rattle.std.specs.Prelude.{◌≡◌, ◌≤◌, ◌∷◌, ◌++◌, ℕ, List, [], IfErr, IfOk, OnOk, OnErr, length, reverse, true, false};
ghost use Rattle.pipe_graph.specs.Graph.{Graph};
ghost use Rattle.pipe_model.specs.declared.record.Record.{Record};
ghost use Rattle.pipe_model.specs.Event.{IsOfGraph};
ghost use Rattle.pipe_model.specs.Items.{Overfills};
ghost use Rattle.pipe_world.specs.History.{FullBy};
ghost use Rattle.pipe_world.specs.Queues.{IsInPlace, Stand};
ghost use Rattle.pipe_world.specs.Node as kept;
ghost use Rattle.pipe_world.specs.Node.{Works};
ghost use Rattle.pipe_model.specs.Records.{record_of};
ghost use Rattle.pipe_world.specs.Turn.{ActsAt, IsAt, is_crash, is_there, passing_record, taken_of, IsUndecided};
ghost use Rattle.pipe_world.specs.World.{Adds, AddsEvent, PassesBy, Restores, Stands, StandsForSome, WouldOverfill};
ghost use Rattle.pipe_base.specs.Limits.{most_links};

use crate::enter::enter;
use crate::fault::StepFault;
use crate::history::History;
use crate::node::{Node, NodeState};
use crate::turn::{Turn, whose_turn};
use pipe_base::{KeptStep, NoMemory, NodeId, Outcome};
use pipe_model::{Event, Record, Took};
use pipe_net::Queues;
use pipe_topo::Topology;

/// Appends the record of an event and changes what it changes. On a fault nothing happens.
pub fn happen(
    topology: &Topology,
    nodes: &mut [NodeState],
    queues: &mut Queues,
    history: &mut History,
    event: Event,
) -> Result<(), StepFault>
    requires stands { Stands topology.now nodes.old queues.old history.old }
    requires event { IsOfGraph topology.now event }
    requires undecided { IsUndecided event }
    ensures ok { OnOk result (AddsEvent history.old history.new event) }
    ensures err { OnErr result (history.new ≡ history.old) }
    ensures full { IfErr result (λ fault. (items : ℕ) → fault ≡ StepFault.Full items
        → Overfills topology.now history.old event items) }
    ensures stands { Stands topology.now nodes.new queues.new history.new }
{
    let Ok(turn) = whose_turn(topology, nodes, queues, &event) else {
        return Err(StepFault::NoMemory);
    };
    match turn {
        Turn::Passes { took, outcome } => pass_by(queues, history, event, took, outcome),
        Turn::Acts { id, took } => act(
            topology,
            id,
            &mut nodes[id.0 as usize],
            queues,
            history,
            event,
            took,
        ),
    }
}

/// An event in which no node does anything.
fn pass_by(
    queues: &mut Queues,
    history: &mut History,
    event: Event,
    took: Took,
    outcome: Outcome,
) -> Result<(), StepFault>
    requires stands { (graph : Graph) × Stand graph queues.old (reverse history.old) }
    requires in_place { IsInPlace queues.old event outcome }
    ensures ok { OnOk result (PassesBy queues.old queues.new history.old history.new (passing_record event took outcome)) }
    ensures err { OnErr result ((history.new ≡ history.old) × (queues.new ≡ queues.old)) }
    ensures full { IfErr result (FullBy history.old (passing_record event took outcome)) }
{
    let mut made = Record {
        event,
        took,
        step: KeptStep::quiet(outcome),
    };
    enter(queues, history, &mut made)
}

/// An event at the node that acts in it.
fn act(
    topology: &Topology,
    id: NodeId,
    state: &mut NodeState,
    queues: &mut Queues,
    history: &mut History,
    event: Event,
    took: Took,
) -> Result<(), StepFault>
    requires event { IsOfGraph topology.now event }
    requires undecided { IsUndecided event }
    requires acts { ActsAt topology.now id event took }
    requires took { took ≡ taken_of queues.old event }
    requires stands { StandsForSome topology.now id.0 state.old.node }
    requires awake { state.old.crashed ≡ false }
    requires waits { Stand topology.now queues.old (reverse history.old) }
    requires few { length topology.now.links ≤ most_links }
    requires there { is_there queues.old event ≡ true }
    ensures ok { OnOk result ((r : Record) × (history.new ≡ history.old ++ r ∷ []) × (r.event ≡ event)
        × Adds topology.now id.0 state.old state.new queues.old queues.new r) }
    ensures err { OnErr result ((history.new ≡ history.old) × (queues.new ≡ queues.old)
        × Restores topology.now id.0 state.old state.new) }
    ensures full { IfErr result (λ fault. (items : ℕ) → fault ≡ StepFault.Full items
        → WouldOverfill topology.now id.0 state.old queues.old history.old event items) }
{
    let crashes = is_crash(&event);
    let mut made = Record {
        event,
        took,
        step: KeptStep::quiet(Outcome::Ok),
    };
    let Ok(step) = work_at(topology, &mut state.node, &made.event, &made.took) else {
        return Err(StepFault::NoMemory);
    };
    made.step = step;
    let at = history.trace().len();
    match enter(queues, history, &mut made) {
        Ok(()) => {
            state.node.follow(&history.trace().as_slice()[at]);
            state.crashed = crashes;
            Ok(())
        }
        Err(fault) => {
            state.node.undo(&made);
            Err(fault)
        }
    }
}

fn is_crash(event: &Event) -> bool
    ensures { result ≡ is_crash event.now }
{
    matches!(event, Event::Crash { .. })
}

/// Works out the step of the node that acts. Of the node only what the step makes it hold, note, bury, begin or set aside is
/// changed.
fn work_at(
    topology: &Topology,
    node: &mut Node,
    event: &Event,
    took: &Took,
) -> Result<KeptStep, NoMemory>
    requires acts { (id : NodeId) × IsAt topology.now id event.now took.now node.old }
    requires undecided { IsUndecided event.now }
    ensures work { IfOk result (λ step. (id : NodeId) (own : List Record) → IsOfGraph topology.now event.now
        → ActsAt topology.now id event.now took.now
        → kept.Stands topology.now id.0 own node.old
        → Works topology.now id.0 own (record_of event.now took.now step) node.new) }
    ensures err { OnErr result (node.new ≡ node.old) }
{
    match event {
        Event::Send {
            service,
            now,
            dests,
            ..
        } => node.work_send(*service, *now, dests),
        Event::Tick { now, .. } => node.work_tick(*now),
        Event::Take { link, .. } => {
            let Took::Link { packet, .. } = took else {
                unreachable!()
            };
            node.work_take(*link, packet)
        }
        Event::ControlTake { .. } => {
            let Took::Message { addressed } = took else {
                unreachable!()
            };
            node.work_control(topology, &addressed.control)
        }
        Event::Crash { .. } => Ok(node.work_crash()),
        _ => unreachable!(),
    }
}
