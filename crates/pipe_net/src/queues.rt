// All that waits in a network.
ghost use Rattle.std.specs.Prelude.{◌≡◌, ◌<◌, ◌^◌, ◌-◌, ◌++◌, ◌∷◌, [], if◌then◌else◌, false, length, nat_lt, remove, replicate, slice_get, IfOk, IsOk, OnErr, OnOk};
ghost use Rattle.pipe_net.specs.Waits.{cut, waiting, with_packet, without_packet, on_link};

use crate::line::Line;
use crate::queue::Queue;
use pipe_base::{Addressed, LinkId, NoMemory, Packet};
use std::alloc::Global;
use std::marker::Model;

/// The packets that wait on each link, in the order put, and the control messages that wait. Place 0 is the oldest.
#[derive(Drop)]
pub struct Queues {
    lines: Vec<Line>,
    control: Queue<Addressed>,
}

impl Model for Queues {
    ghost use Rattle.pipe_net.specs.Waits.{Waits};

    ghost Value = { Waits };

    ghost view = { λ q. record { lines = q.lines.items; control = q.control } };
}

impl Queues {
    /// Links on which nothing waits.
    pub fn new(alloc: Global, links: u16) -> Result<Queues, NoMemory>
        ensures { IfOk result (λ queues. queues ≡ record { lines = replicate links (Line.Open []); control = [] }) }
    {
        let mut lines = Vec::with_capacity(alloc, links as usize)?;
        'links: for _ in 0..links {
            lines.push(Line::Open(Queue::new(alloc)))?;
        }
        Ok(Queues {
            lines,
            control: Queue::new(alloc),
        })
    }

    /// How many packets wait on a link. Takes no memory.
    pub fn waiting(&self, link: LinkId) -> u32
        requires { link.0 < length self.now.lines }
        ensures { result ≡ length (waiting link.0 self.now) }
    {
        self.lines[link.0 as usize].waiting()
    }

    /// Puts a packet at the end of a link's list. A cut link loses it.
    pub fn put(&mut self, link: LinkId, packet: Packet) -> Result<(), NoMemory>
        requires known { link.0 < length self.old.lines }
        requires few { length (waiting link.0 self.old) < 2 ^ 32 - 1 }
        ensures ok { OnOk result (self.new ≡ on_link link.0 (with_packet packet) self.old) }
        ensures err { OnErr result (self.new ≡ self.old) }
    {
        self.lines[link.0 as usize].put(packet)
    }

    /// Takes the packet at a place, None where no packet waits there. With `keep` it stays and a copy is taken. Without, it
    /// leaves the list, and no memory is taken.
    pub fn take(&mut self, link: LinkId, place: u32, keep: bool) -> Result<Option<Packet>, NoMemory>
        requires { link.0 < length self.old.lines }
        ensures taken { IfOk result (λ packet. packet ≡ slice_get (waiting link.0 self.old) place) }
        ensures left { OnOk result (self.new ≡ (if keep then self.old else on_link link.0 (without_packet place) self.old)) }
        ensures err { OnErr result (self.new ≡ self.old) }
        ensures moves { keep ≡ false → IsOk result }
    {
        self.lines[link.0 as usize].take(place, keep)
    }

    /// Loses the packet at a place, false where no packet waits there. Takes no memory.
    pub fn lose(&mut self, link: LinkId, place: u32) -> bool
        requires { link.0 < length self.old.lines }
        ensures found { result ≡ nat_lt place (length (waiting link.0 self.old)) }
        ensures left { self.new ≡ on_link link.0 (without_packet place) self.old }
    {
        self.lines[link.0 as usize].lose(place)
    }

    /// Cuts a link: what waits on it is lost, and all that is put later. Takes no memory.
    pub fn cut(&mut self, link: LinkId)
        requires { link.0 < length self.old.lines }
        ensures { self.new ≡ on_link link.0 cut self.old }
    {
        self.lines[link.0 as usize] = Line::Cut;
    }

    /// How many control messages wait. Takes no memory.
    pub fn waiting_control(&self) -> u32
        ensures { result ≡ length self.now.control }
    {
        self.control.len()
    }

    /// Puts a control message at the end of the list.
    pub fn put_control(&mut self, message: Addressed) -> Result<(), NoMemory>
        requires { length self.old.control < 2 ^ 32 - 1 }
        ensures ok { OnOk result (self.new ≡ record self.old { control = self.old.control ++ message ∷ [] }) }
        ensures err { OnErr result (self.new ≡ self.old) }
    {
        self.control.put(message)
    }

    /// Takes the control message at a place, as `take` does a packet.
    pub fn take_control(&mut self, place: u32, keep: bool) -> Result<Option<Addressed>, NoMemory>
        ensures taken { IfOk result (λ message. message ≡ slice_get self.old.control place) }
        ensures left { OnOk result (self.new ≡ (if keep then self.old else record self.old { control = remove self.old.control place })) }
        ensures err { OnErr result (self.new ≡ self.old) }
        ensures moves { keep ≡ false → IsOk result }
    {
        self.control.take(place, keep)
    }

    /// Loses the control message at a place, false where none waits there. Takes no memory.
    pub fn lose_control(&mut self, place: u32) -> bool
        ensures found { result ≡ nat_lt place (length self.old.control) }
        ensures left { self.new ≡ record self.old { control = remove self.old.control place } }
    {
        self.control.lose(place)
    }
}
