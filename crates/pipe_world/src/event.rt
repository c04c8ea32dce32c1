// One event of a run: the controller decides, or it hears what the event brings to it.
ghost use Rattle.std.specs.Prelude.{◌≡◌, ◌≤◌, ℕ, IfErr, OnErr, OnOk, length, reverse};
ghost use Rattle.pipe_graph.specs.Graph.{Graph};
ghost use Rattle.pipe_control.specs.Known as control;
ghost use Rattle.pipe_control.specs.Known.{Fits, IsSized};
ghost use Rattle.pipe_model.specs.Controller.{after_event};
ghost use Rattle.pipe_model.specs.Event.{IsOfGraph};
ghost use Rattle.pipe_model.specs.Items.{Overfills, items_of};
ghost use Rattle.pipe_model.specs.View.{View};
ghost use Rattle.pipe_world.specs.Decision.{Decides, decided};
ghost use Rattle.pipe_world.specs.History.{FullBy};
ghost use Rattle.pipe_world.specs.Queues.{Stand};
ghost use Rattle.pipe_world.specs.Turn.{IsUndecided};
ghost use Rattle.pipe_world.specs.World.{AddsEvent, RunsFor};
ghost use Rattle.pipe_base.specs.Limits.{most_items, most_nodes, most_links};

use crate::enter::enter;
use crate::fault::StepFault;
use crate::happen::happen;
use crate::history::History;
use crate::node::NodeState;
use pipe_base::To;
use pipe_control::Controller;
use pipe_model::{Event, Record, Took};
use pipe_net::Queues;
use pipe_topo::Topology;

/// Appends the record of an event and changes what it changes. On a fault nothing happens.
pub fn run_event(
    topology: &Topology,
    nodes: &mut [NodeState],
    queues: &mut Queues,
    controller: &mut Controller,
    history: &mut History,
    event: Event,
) -> Result<(), StepFault>
    requires runs { RunsFor topology.now nodes.old queues.old controller.old history.old }
    requires event { IsOfGraph topology.now event }
    ensures ok { OnOk result (AddsEvent history.old history.new event) }
    ensures err { OnErr result (history.new ≡ history.old) }
    ensures full { IfErr result (λ fault. (items : ℕ) → fault ≡ StepFault.Full items
        → Overfills topology.now history.old event items) }
    ensures within { OnOk result (items_of history.new ≤ most_items) }
    ensures runs { RunsFor topology.now nodes.new queues.new controller.new history.new }
{
    if let Event::Decide = event {
        return decide(topology, queues, controller, history);
    }
    let at = history.trace().len();
    happen(topology, nodes, queues, history, event)?;
    hear(controller, &history.trace().as_slice()[at]);
    Ok(())
}

/// The controller decides.
fn decide(
    topology: &Topology,
    queues: &mut Queues,
    controller: &mut Controller,
    history: &mut History,
) -> Result<(), StepFault>
    requires fits { Fits topology.now controller.old }
    requires few_links { length topology.now.links ≤ most_links }
    requires few_hosts { topology.now.hosts ≤ most_nodes }
    requires few_nodes { topology.now.nodes ≤ most_nodes }
    requires waits { Stand topology.now queues.old (reverse history.old) }
    ensures ok { OnOk result ((v : View) → control.Stands topology.now v controller.old
        → Decides topology.now v queues.old queues.new controller.new history.old history.new) }
    ensures err { OnErr result ((history.new ≡ history.old) × (queues.new ≡ queues.old)
        × (controller.new ≡ controller.old)) }
    ensures within { OnOk result (items_of history.new ≤ most_items) }
    ensures full { IfErr result (λ fault. (v : View) → control.Stands topology.now v controller.old
        → FullBy history.old (decided topology.now v) fault) }
{
    let Ok((step, change)) = controller.work_step(topology) else {
        return Err(StepFault::NoMemory);
    };
    let mut made = Record {
        event: Event::Decide,
        took: Took::Nothing,
        step,
    };
    match enter(queues, history, &mut made) {
        Ok(()) => {
            controller.follow(change);
            Ok(())
        }
        Err(fault) => Err(fault),
    }
}

/// The controller takes the message that an event brings to it, if it brings one. Takes no memory.
fn hear(controller: &mut Controller, made: &Record)
    requires { IsSized controller.old }
    ensures { (graph : Graph) (v : View) → IsUndecided made.now.event → control.Stands graph v controller.old
        → control.Stands graph (after_event graph made.now.event made.now.took made.now.step.outcome v) controller.new }
{
    if let (Event::ControlTake { .. }, Took::Message { addressed }) = (&made.event, &made.took) {
        if let To::Controller = addressed.to {
            controller.take(&addressed.control);
        }
    }
}
