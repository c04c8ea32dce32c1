// What nodes and the controller tell each other.

use crate::{HostId, LinkId, List, NoMemory, NodeId, SharedList, Ts};

/// A failed host, and the time from which its reliable messages are discarded.
#[derive(Clone, Copy, Debug, PartialEq, Eq)]
pub struct Announced {
    pub host: HostId,
    pub time: Ts,
}

/// Announced hosts, in the order of their announcement.
pub type AnnouncedList = List<Announced>;

/// Links, in an order that their use says.
pub type LinkList = List<LinkId>;

/// Where a control message goes.
#[derive(Clone, Copy, Debug, PartialEq, Eq)]
pub enum To {
    Controller,
    Node(NodeId),
}

/// A control message. A copy takes no memory: its list is shared.
#[derive(Clone, Debug, Drop)]
pub enum Control {
    /// To the controller: this link went down with this commit register.
    Down { link: LinkId, value: Ts },
    /// To a node: take this link down.
    Freeze { link: LinkId },
    /// To a host: these hosts have failed.
    Notice { list: SharedList<Announced> },
    /// To the controller: the host has noted that many failed hosts.
    Done { host: HostId, count: u16 },
    /// To a node: these links are dropped.
    DropLinks { links: SharedList<LinkId> },
    /// To the controller: the node knows that many dropped links.
    Gone { node: NodeId, count: u16 },
}

/// A control message and its receiver.
#[derive(Clone, Debug, Drop)]
pub struct Addressed {
    pub to: To,
    pub control: Control,
}

impl Control {
    ghost use Rattle.std.specs.Prelude.{◌≡◌, IfOk};

    pub fn try_clone(&self) -> Result<Control, NoMemory>
        ensures { IfOk result (λ copy. copy ≡ self.now) }
    {
        Ok(self.clone()?)
    }
}

impl Addressed {
    ghost use Rattle.std.specs.Prelude.{◌≡◌, IfOk};

    pub fn try_clone(&self) -> Result<Addressed, NoMemory>
        ensures { IfOk result (λ copy. copy ≡ self.now) }
    {
        Ok(self.clone()?)
    }
}
