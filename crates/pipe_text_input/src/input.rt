// What is read, and why it may be refused.

use pipe_model::EventList;
use pipe_text::LineKind;
use pipe_text_plan::PlanFault;
use pipe_topo::{NodeNames, Plan, Topology};

/// A network and what happens in it.
#[derive(Drop)]
pub struct Input {
    pub names: NodeNames,
    pub plan: Plan,
    pub topology: Topology,
    pub events: EventList,
}

/// The first fault of an input, in this order; want of memory may come before any.
#[derive(Clone, Copy, Debug, PartialEq, Eq)]
pub enum InputFault {
    /// The topology part is none; `PlanFault::NoMark` comes before `TooManyEvents`, the other faults after it.
    Plan(PlanFault),
    /// The schedule has more than 200,000 lines that are not skipped.
    TooManyEvents { count: u32 },
    /// The first bad line of the schedule, and its first fault.
    Line { line: u32, kind: LineKind },
    NoMemory,
}
