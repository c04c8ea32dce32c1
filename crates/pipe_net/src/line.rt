// What waits on one link.
ghost use Rattle.std.specs.Prelude.{◌≡◌, ◌<◌, ◌^◌, ◌-◌, if◌then◌else◌, false, length, nat_lt, slice_get, IfOk, IsOk, OnErr, OnOk};
ghost use Rattle.pipe_net.specs.Waits.{packets_of, with_packet, without_packet};

use crate::queue::Queue;
use pipe_base::{NoMemory, Packet};

/// The packets that wait on a link, or that it is cut: then nothing waits, now and later.
#[derive(Drop)]
pub enum Line {
    Open(Queue<Packet>),
    Cut,
}

impl Line {
    pub fn waiting(&self) -> u32
        ensures { result ≡ length (packets_of self.now) }
    {
        match self {
            Line::Open(packets) => packets.len(),
            Line::Cut => 0,
        }
    }

    pub fn put(&mut self, packet: Packet) -> Result<(), NoMemory>
        requires { length (packets_of self.old) < 2 ^ 32 - 1 }
        ensures ok { OnOk result (self.new ≡ with_packet packet self.old) }
        ensures err { OnErr result (self.new ≡ self.old) }
    {
        match self {
            Line::Open(packets) => packets.put(packet),
            Line::Cut => Ok(()),
        }
    }

    pub fn take(&mut self, place: u32, keep: bool) -> Result<Option<Packet>, NoMemory>
        ensures taken { IfOk result (λ packet. packet ≡ slice_get (packets_of self.old) place) }
        ensures left { OnOk result (self.new ≡ (if keep then self.old else without_packet place self.old)) }
        ensures err { OnErr result (self.new ≡ self.old) }
        ensures moves { keep ≡ false → IsOk result }
    {
        match self {
            Line::Open(packets) => packets.take(place, keep),
            Line::Cut => Ok(None),
        }
    }

    pub fn lose(&mut self, place: u32) -> bool
        ensures found { result ≡ nat_lt place (length (packets_of self.old)) }
        ensures left { self.new ≡ without_packet place self.old }
    {
        match self {
            Line::Open(packets) => packets.lose(place),
            Line::Cut => false,
        }
    }
}
