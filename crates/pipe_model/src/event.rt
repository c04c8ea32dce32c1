// What can happen: each event is one atomic step of at most one node.

use pipe_base::{DestList, HostId, LinkId, List, NoMemory, NodeId, Service, Ts};

/// An event. A place counts what waits from 0, the oldest.
#[derive(Clone, Debug, Drop)]
pub enum Event {
    /// The host sends a scattering: one message to each receiver, all under one timestamp.
    Send {
        host: HostId,
        service: Service,
        now: Ts,
        dests: DestList,
    },
    /// The node's clock reads `now`.
    Tick {
        node: NodeId,
        now: Ts,
    },
    /// The packet at this place reaches the head of the link. With `keep` a copy stays.
    Take {
        link: LinkId,
        place: u32,
        keep: bool,
    },
    /// The packet at this place is lost.
    Lose {
        link: LinkId,
        place: u32,
    },
    /// The control message at this place reaches its receiver. With `keep` a copy stays.
    ControlTake {
        place: u32,
        keep: bool,
    },
    /// The control message at this place is lost.
    ControlLose {
        place: u32,
    },
    /// The controller decides.
    Decide,
    /// The node stops for good.
    Crash {
        node: NodeId,
    },
    /// The link loses all that waits and all that is put on it later.
    Cut {
        link: LinkId,
    },
}

/// Events in the order in which they happen.
pub type EventList = List<Event>;

impl Event {
    ghost use Rattle.std.specs.Prelude.{◌≡◌, IfOk};

    pub fn try_clone(&self) -> Result<Event, NoMemory>
        ensures { IfOk result (λ copy. copy ≡ self.now) }
    {
        Ok(self.clone()?)
    }
}
