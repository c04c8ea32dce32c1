// A record enters the history: its packets are put, and what it takes leaves its list.
ghost use Rattle.std.specs.Prelude.{◌≡◌, ◌≤◌, ℕ, [], ◌∷◌, ◌++◌, List, OnOk, OnErr, IfErr, length, reverse};
ghost use Rattle.pipe_graph.specs.Graph.{Graph};
ghost use Rattle.pipe_model.specs.declared.record.Record.{Record};
ghost use Rattle.pipe_base.specs.Limits.{most_items};
ghost use Rattle.pipe_model.specs.Items.{items_in, items_of};
ghost use Rattle.pipe_world.specs.History.{FullBy};
ghost use Rattle.pipe_net.specs.Waits.{waiting};
ghost use Rattle.pipe_world.specs.Queues.{AreKnown, IsInPlace, Stand, with_items};

use crate::fault::StepFault;
use crate::history::History;
use crate::puts::{put_all, put_messages, take_back, take_messages_back, take_out};
use pipe_base::NoMemory;
use pipe_model::Record;
use pipe_net::Queues;

/// Moves the record out of its place to the end of the history, and moves packets as it says. Where it puts too much or there
/// is no memory, it stays, and all is as before.
pub fn enter(queues: &mut Queues, history: &mut History, made: &mut Record) -> Result<(), StepFault>
    requires stands { (graph : Graph) × Stand graph queues.old (reverse history.old) }
    requires known { AreKnown (length queues.old.lines) made.old.step.put }
    requires few { items_in made.old ≤ most_items }
    requires in_place { IsInPlace queues.old made.old.event made.old.step.outcome }
    ensures ok { OnOk result (history.new ≡ history.old ++ made.old ∷ []) }
    ensures err { OnErr result ((history.new ≡ history.old) × (made.new ≡ made.old) × (queues.new ≡ queues.old)) }
    ensures full { IfErr result (FullBy history.old made.old) }
    ensures within { OnOk result (items_of history.new ≤ most_items) }
    ensures queues_ok { OnOk result ((graph : Graph) (past : List Record) → Stand graph queues.old past
        → Stand graph queues.new (made.old ∷ past)) }
{
    let at = history.trace().len();
    if put_both(queues, made).is_err() {
        return Err(StepFault::NoMemory);
    }
    if let Err(fault) = history.push_from(made) {
        take_messages_back(queues, made.step.control().len());
        take_back(queues, made.step.put());
        return Err(fault);
    }
    let made = &history.trace().as_slice()[at];
    take_out(queues, &made.event, made.step.outcome());
    Ok(())
}

/// Puts the packets and the control messages of a record, or none.
fn put_both(queues: &mut Queues, made: &Record) -> Result<(), NoMemory>
    requires known { AreKnown (length queues.old.lines) made.now.step.put }
    requires few { items_in made.now ≤ most_items }
    requires room { (link : ℕ) → length (waiting link queues.old) ≤ most_items }
    requires room_control { length queues.old.control ≤ most_items }
    ensures ok { OnOk result (queues.new ≡ with_items made.now queues.old) }
    ensures err { OnErr result (queues.new ≡ queues.old) }
{
    put_all(queues, made.step.put())?;
    if put_messages(queues, made.step.control()).is_err() {
        take_back(queues, made.step.put());
        return Err(NoMemory);
    }
    Ok(())
}
