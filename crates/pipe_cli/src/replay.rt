// A replay: the events of an input, run one by one, and the text of the run.
ghost use Rattle.std.specs.Prelude.{◌≡◌, ◌≤◌, ℕ, All, List, [], length, map, IfOk, IfErr, OnOk};
ghost use Rattle.std.specs.VecDeque.{deque_len};
ghost use Rattle.pipe_base.specs.Limits.{most_bytes};
ghost use Rattle.pipe_model.specs.Run.{event_of};
ghost use Rattle.pipe_text_input.specs.Content.{content_of};
ghost use Rattle.pipe_text_input.specs.Read.{IsRead};
ghost use Rattle.pipe_model.specs.Event.{IsOfGraph};
ghost use Rattle.pipe_model.specs.OrderedRun.{IsOrderedRun};
ghost use Rattle.pipe_cli.specs.Replay.{IsRefusal, Replays, replay_text};
ghost use Rattle.pipe_cli.specs.Running.{IsStopped};

use crate::read::INPUT_LIMIT;
use crate::status::{Status, status_of_fault};
use crate::words::Form;
use pipe_base::{List, NoMemory, Size};
use pipe_model::{Event, EventList, Trace};
use pipe_text::Text;
use pipe_text_input::{Input, read_input};
use pipe_text_log::print_logs;
use pipe_text_trace::print_trace;
use pipe_topo::{NodeNames, Topology};
use pipe_world::{StepFault, World};
use std::alloc::Global;
use std::collections::VecDeque;

/// What happened, and its text.
#[derive(Drop)]
pub struct Replayed {
    pub trace: Trace,
    pub text: Text,
}

/// Runs an input, or answers its refusal. The bytes are gone once they are read.
pub fn replay(alloc: Global, form: Form, bytes: Vec<u8>) -> Result<Replayed, Status>
    ensures ok { IfOk result (λ done. Replays form bytes.items done.trace done.text) }
    ensures err { IfErr result (IsRefusal bytes.items) }
{
    if bytes.len() > INPUT_LIMIT {
        return Err(Status::TooLong {
            what: Size::Bytes,
            count: 67_108_865,
        });
    }
    let read = read_input(alloc, &bytes);
    drop(bytes);
    match read {
        Ok(input) => run_input(alloc, form, input),
        Err(fault) => Err(status_of_fault(fault)),
    }
}

fn run_input(alloc: Global, form: Form, input: Input) -> Result<Replayed, Status>
    requires { All (IsOfGraph input.topology) input.events }
    ensures ok { IfOk result (λ done. (bytes : List ℕ) → length bytes ≤ most_bytes → IsRead (content_of bytes) input
        → Replays form bytes done.trace done.text) }
    ensures err { IfErr result (λ status. (bytes : List ℕ) → length bytes ≤ most_bytes → IsRead (content_of bytes) input
        → IsRefusal bytes status) }
{
    let Input {
        names,
        topology,
        events,
        ..
    } = input;
    let Ok(world) = World::new(alloc, topology) else {
        return Err(Status::NoMemory);
    };
    match run_all(world, events) {
        Ok(world) => match show(alloc, form, &names, world) {
            Ok(done) => Ok(done),
            Err(NoMemory) => Err(Status::NoMemory),
        },
        Err(StepFault::NoMemory) => Err(Status::NoMemory),
        Err(StepFault::Full { items }) => Err(Status::TooLong {
            what: Size::Items,
            count: items,
        }),
    }
}

/// The world after all these events, or why they do not all happen.
fn run_all(mut world: World, events: EventList) -> Result<World, StepFault>
    requires fresh { world.trace ≡ [] }
    requires known { All (IsOfGraph world.graph) events }
    ensures graph { IfOk result (λ after. after.graph ≡ world.graph) }
    ensures ran { IfOk result (λ after. map event_of after.trace ≡ events) }
    ensures stopped { IfErr result (λ fault. (items : ℕ) → fault ≡ StepFault.Full items
        → IsStopped world.graph events items) }
{
    match run_events(&mut world, events) {
        Ok(()) => Ok(world),
        Err(fault) => Err(fault),
    }
}

/// The text of what happened in a world, and its trace.
fn show(alloc: Global, form: Form, names: &NodeNames, world: World) -> Result<Replayed, NoMemory>
    ensures run { IfOk result (λ done. IsOrderedRun world.graph (map event_of world.trace) done.trace) }
    ensures text { IfOk result (λ done. done.text ≡ replay_text form names.now world.graph done.trace) }
{
    let text = text_of(alloc, form, names, world.topology(), world.trace())?;
    Ok(Replayed {
        trace: world.into_trace(),
        text,
    })
}

/// The text of a run: with `--trace` the logs are appended to the text of the trace.
fn text_of(
    alloc: Global,
    form: Form,
    names: &NodeNames,
    topology: &Topology,
    trace: &Trace,
) -> Result<Text, NoMemory>
    ensures { IfOk result (λ text. text ≡ replay_text form names.now topology.now trace.now) }
{
    let logs = print_logs(alloc, names, topology, trace)?;
    match form {
        Form::Replay => Ok(logs),
        Form::ReplayTrace => {
            let mut text = print_trace(alloc, names, trace)?.into_vec();
            text.extend_from_slice(logs.as_slice())?;
            Ok(List::from_vec(text))
        }
    }
}

/// Runs the events in their order, up to the first that is refused.
fn run_events(world: &mut World, events: EventList) -> Result<(), StepFault>
    requires fresh { world.old.trace ≡ [] }
    requires known { All (IsOfGraph world.old.graph) events }
    ensures graph { world.new.graph ≡ world.old.graph }
    ensures ran { OnOk result (map event_of world.new.trace ≡ events) }
    ensures stopped { IfErr result (λ fault. (items : ℕ) → fault ≡ StepFault.Full items
        → IsStopped world.old.graph events items) }
{
    let mut left = VecDeque::from_vec(events.into_vec());
    'running: while let Some(event) = left.pop_front() {
        world.step(event)?;
        give_back(&mut left);
    }
    Ok(())
}

/// Gives the room of the events that have happened back, once it is two thirds of all. So an event moves half a time on average.
fn give_back(left: &mut VecDeque<Event>)
    ensures items { left.new.items ≡ left.old.items }
    ensures len { deque_len left.new ≡ deque_len left.old }
{
    if left.len() < left.capacity() / 3 {
        left.shrink_to_fit();
    }
}
