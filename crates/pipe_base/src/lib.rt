//! The words that every other crate speaks: names of hosts, nodes and links, timestamps, packets, control messages,
//! what one step of a node tells, and where a packet goes next.
#![tactic(auto)]

mod body;
mod control;
mod fault;
mod kept;
mod list;
mod message;
mod name;
mod noted;
mod packet;
mod puts;
mod router;
mod shared;
mod step;
mod told;

pub use body::{BODY_LIMIT, Body, BodyFault};
pub use control::{Addressed, Announced, AnnouncedList, Control, LinkList, To};
pub use fault::{NoMemory, Size};
pub use kept::{KeptStep, PutRoom};
pub use list::List;
pub use message::{
    Dest, DestList, Entry, Key, LoggedList, Message, RECEIVER_LIMIT, Service, UNSETTLED_LIMIT,
};
pub use name::{HostId, LAST_BARRIER, LAST_STAMP, Link, LinkId, NodeId, Ts};
pub use noted::Noted;
pub use packet::{Packet, PacketKind, Plane};
pub use router::Router;
pub use shared::SharedList;
pub use step::{AddressedList, DownList, Fate, Outcome, PutList, Step};
pub use told::Told;
