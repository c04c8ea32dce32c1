// The names of hosts, nodes and links, and timestamps: plain numbers with a type each.

/// A host, numbered from 0. A host is also the node of that number.
#[derive(Clone, Copy, Debug, PartialEq, Eq, PartialOrd, Ord)]
pub struct HostId(pub u16);

/// A node: first the hosts, then for each switch its up half and its down half.
#[derive(Clone, Copy, Debug, PartialEq, Eq)]
pub struct NodeId(pub u16);

/// A link from one node to another.
#[derive(Clone, Copy, Debug, PartialEq, Eq)]
pub struct LinkId(pub u16);

/// A timestamp, a clock reading or a barrier, in ticks of the hosts' clocks.
#[derive(Clone, Copy, Debug, PartialEq, Eq, PartialOrd, Ord)]
pub struct Ts(pub u64);

/// The two ends of a link.
#[derive(Clone, Copy, Debug)]
pub struct Link {
    pub tail: NodeId,
    pub head: NodeId,
}

/// The last reading and the last stamp: timestamps have 48 bits.
pub const LAST_STAMP: u64 = 281474976710654;

/// The last barrier, one above the last stamp.
pub const LAST_BARRIER: u64 = 281474976710655;
