// Messages: who sends what to whom, and under which timestamp.

use crate::{Body, HostId, List, NoMemory, Ts};

/// The two services. A best-effort message may be lost; a reliable one reaches all correct receivers or none.
#[derive(Clone, Copy, Debug, PartialEq, Eq)]
pub enum Service {
    BestEffort,
    Reliable,
}

/// The place of a message in the total order: by timestamp, then by sender.
#[derive(Clone, Copy, Debug, PartialEq, Eq, PartialOrd, Ord)]
pub struct Key {
    pub ts: Ts,
    pub src: HostId,
}

/// The most receivers of a scattering.
pub const RECEIVER_LIMIT: usize = 16;

/// The most reliable scatterings of one sender that are not settled.
pub const UNSETTLED_LIMIT: usize = 16;

/// A message of a service to one receiver.
#[derive(Clone, Debug, Drop)]
pub struct Message {
    pub service: Service,
    pub src: HostId,
    pub dst: HostId,
    pub ts: Ts,
    pub body: Body,
}

/// A line of a host's log.
#[derive(Clone, Debug, Drop)]
pub struct Entry {
    pub key: Key,
    pub body: Body,
}

/// A receiver of a scattering and what it is sent.
pub type Dest = (HostId, Body);

/// The receivers of a scattering, in listed order.
pub type DestList = List<Dest>;

/// What a step logged, in order.
pub type LoggedList = List<(Service, Entry)>;

impl Message {
    ghost use Rattle.std.specs.Prelude.{◌≡◌, IfOk};

    pub fn try_clone(&self) -> Result<Message, NoMemory>
        ensures { IfOk result (λ copy. copy ≡ self.now) }
    {
        Ok(self.clone()?)
    }
}

impl Entry {
    ghost use Rattle.std.specs.Prelude.{◌≡◌, IfOk};

    pub fn try_clone(&self) -> Result<Entry, NoMemory>
        ensures { IfOk result (λ copy. copy ≡ self.now) }
    {
        Ok(self.clone()?)
    }
}
