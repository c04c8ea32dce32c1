// What one step of a node tells.
ghost use Rattle.std.specs.Prelude.{◌≡◌, IfOk};

use crate::{
    Addressed, AnnouncedList, HostId, LinkId, LinkList, List, LoggedList, NoMemory, Packet, Ts,
};
use std::alloc::Global;

/// What became of a message that reached its receiver.
#[derive(Clone, Copy, Debug, PartialEq, Eq)]
pub enum Fate {
    /// It waits for the barrier.
    Held,
    /// It is held already.
    Repeat,
    /// The barrier had passed it.
    Late { barrier: Ts },
    /// Its sender failed at or before its timestamp.
    Discarded { time: Ts },
    /// Its sender took it back.
    Recalled,
}

/// What became of an event.
#[derive(Clone, Copy, Debug, PartialEq, Eq)]
pub enum Outcome {
    Ok,
    /// A receiver of the send has failed.
    DestFailed { host: HostId },
    /// The sender has as many unsettled scatterings as it may.
    Window { count: u16 },
    /// The clock of the sender is at its end.
    ClockEnd { next: Ts },
    /// The node has crashed.
    Crashed,
    /// Nothing waits at that place.
    NoItem,
    /// The link is down, so its packet is not looked at.
    Ignored,
}

/// Packets and the links that they are put on, in order.
pub type PutList = List<(LinkId, Packet)>;

/// Control messages in the order put.
pub type AddressedList = List<Addressed>;

/// Links that went down, each with its commit register.
pub type DownList = List<(LinkId, Ts)>;

/// All that a step did, in lists that are empty where it did nothing.
#[derive(Debug, Drop)]
pub struct Step {
    pub put: PutList,
    pub control: AddressedList,
    pub downed: DownList,
    pub dropped: LinkList,
    pub stamped: Option<Ts>,
    pub fate: Option<Fate>,
    pub logged: LoggedList,
    pub noted: AnnouncedList,
    pub unrouted: u32,
    pub outcome: Outcome,
}

impl Step {
    ghost use Rattle.std.specs.Prelude.{◌≡◌, IfOk};
    ghost use Rattle.pipe_base.specs.Step.{quiet_step};

    /// The step that did nothing, with the outcome `Ok`. Takes no memory.
    pub fn new(alloc: Global) -> Step
        ensures { result ≡ quiet_step Outcome.Ok }
    {
        Step {
            put: List::new(alloc),
            control: List::new(alloc),
            downed: List::new(alloc),
            dropped: List::new(alloc),
            stamped: None,
            fate: None,
            logged: List::new(alloc),
            noted: List::new(alloc),
            unrouted: 0,
            outcome: Outcome::Ok,
        }
    }

    pub fn try_clone(&self) -> Result<Step, NoMemory>
        ensures { IfOk result (λ step. step ≡ self.now) }
    {
        Ok(Step {
            put: copy_puts(&self.put)?,
            control: copy_controls(&self.control)?,
            downed: copy_downs(&self.downed)?,
            dropped: copy_drops(&self.dropped)?,
            stamped: self.stamped,
            fate: self.fate,
            logged: copy_entries(&self.logged)?,
            noted: copy_notes(&self.noted)?,
            unrouted: self.unrouted,
            outcome: self.outcome,
        })
    }
}

pub(crate) fn copy_puts(list: &PutList) -> Result<PutList, NoMemory>
    ensures { IfOk result (λ copy. copy ≡ list.now) }
{
    Ok(list.clone()?)
}

fn copy_controls(list: &AddressedList) -> Result<AddressedList, NoMemory>
    ensures { IfOk result (λ copy. copy ≡ list.now) }
{
    Ok(list.clone()?)
}

fn copy_downs(list: &DownList) -> Result<DownList, NoMemory>
    ensures { IfOk result (λ copy. copy ≡ list.now) }
{
    Ok(list.clone()?)
}

fn copy_drops(list: &LinkList) -> Result<LinkList, NoMemory>
    ensures { IfOk result (λ copy. copy ≡ list.now) }
{
    Ok(list.clone()?)
}

pub(crate) fn copy_entries(list: &LoggedList) -> Result<LoggedList, NoMemory>
    ensures { IfOk result (λ copy. copy ≡ list.now) }
{
    Ok(list.clone()?)
}

fn copy_notes(list: &AnnouncedList) -> Result<AnnouncedList, NoMemory>
    ensures { IfOk result (λ copy. copy ≡ list.now) }
{
    Ok(list.clone()?)
}
