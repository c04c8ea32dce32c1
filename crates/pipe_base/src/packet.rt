// What travels on links.

use crate::{Body, HostId, NoMemory, Ts};

/// What a packet is for.
#[derive(Clone, Copy, Debug, PartialEq, Eq)]
pub enum PacketKind {
    /// Carries barriers alone, on each link at each tick.
    Beacon,
    /// A best-effort message.
    Plain,
    /// The first phase of a reliable message.
    Prepare,
    /// The receiver holds the reliable message.
    Ack,
    /// The reliable message is taken back.
    Recall,
    /// The receiver has taken the reliable message back.
    RecallAck,
}

/// One of the two barriers that each packet carries.
#[derive(Clone, Copy, Debug, PartialEq, Eq)]
pub enum Plane {
    /// No best-effort message below it comes on this link any more, where the link keeps order.
    BestEffort,
    /// No reliable message below it is undecided.
    Commit,
}

/// A packet, with the two barriers that its sender promises on the link.
#[derive(Clone, Debug, Drop)]
pub struct Packet {
    pub kind: PacketKind,
    pub src: HostId,
    pub dst: HostId,
    pub ts: Ts,
    pub be: Ts,
    pub commit: Ts,
    pub body: Body,
}

impl Packet {
    ghost use Rattle.std.specs.Prelude.{◌≡◌, IfOk};

    pub fn try_clone(&self) -> Result<Packet, NoMemory>
        ensures { IfOk result (λ copy. copy ≡ self.now) }
    {
        Ok(self.clone()?)
    }
}
