// All that happened, and how much was put in it.
ghost use Rattle.std.specs.Prelude.{◌≡◌, ◌≤◌, ◌+◌, ◌++◌, ◌∷◌, [], IfErr, OnErr, OnOk};
ghost use Rattle.pipe_base.specs.Limits.{most_items};
ghost use Rattle.pipe_model.specs.Items.{items_in, items_of};
ghost use Rattle.pipe_world.specs.History.{FullBy, IsToldFull};

use crate::fault::StepFault;
use pipe_base::{List, NoMemory};
use pipe_model::{Record, Trace};
use std::alloc::Global;
use std::marker::Model;

const MOST_ITEMS: u32 = 1_000_000;

/// The records so far, the oldest first, with a count of what they put. It never passes the limit.
#[derive(Drop)]
pub struct History {
    trace: Trace,
    items: u32,
}

impl Model for History {
    ghost use Rattle.std.specs.Prelude.{List};
    ghost use Rattle.pipe_model.specs.declared.record.Record.{Record};
    ghost use Rattle.pipe_world.specs.History.{IsCounted};

    ghost Value = { List Record };

    ghost view = { λ h. h.trace };

    ghost invariant = { λ h. IsCounted h.items h.trace };
}

impl History {
    pub fn new(alloc: Global) -> History
        ensures { result ≡ [] }
    {
        History {
            trace: List::new(alloc),
            items: 0,
        }
    }

    pub fn trace(&self) -> &Trace
        ensures trace { result.now ≡ self.now }
        ensures within { items_of self.now ≤ most_items }
    {
        &self.trace
    }

    pub fn into_trace(self) -> Trace
        ensures trace { result ≡ self }
        ensures within { items_of self ≤ most_items }
    {
        self.trace
    }

    pub fn items(&self) -> u32
        ensures { result ≡ items_of self.now }
    {
        self.items
    }

    /// What would have been put with this record.
    fn items_with(&self, record: &Record) -> u32
        requires { items_in «record».now ≤ most_items }
        ensures { result ≡ items_of self.now + items_in «record».now }
    {
        self.items + record.step.put().len() as u32 + record.step.control().len() as u32
    }

    /// Moves a record out of its place to the end, unless it puts too much or there is no memory: then it stays.
    pub fn push_from(&mut self, place: &mut Record) -> Result<(), StepFault>
        requires { items_in place.old ≤ most_items }
        ensures ok { OnOk result (self.new ≡ self.old ++ place.old ∷ []) }
        ensures err { OnErr result ((self.new ≡ self.old) × (place.new ≡ place.old)) }
        ensures full { IfErr result (FullBy self.old place.old) }
        ensures many { IfErr result (IsToldFull self.old place.old) }
    {
        let items = self.items_with(place);
        if items > MOST_ITEMS {
            return Err(StepFault::Full { items });
        }
        match self.trace.push_from(place, Record::idle()) {
            Ok(()) => {
                self.items = items;
                Ok(())
            }
            Err(NoMemory) => Err(StepFault::NoMemory),
        }
    }
}
