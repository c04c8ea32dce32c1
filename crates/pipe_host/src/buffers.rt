// The messages that a host holds, of both services.
ghost use Rattle.std.specs.Prelude.{◌≡◌, ◌++◌, ◌-◌, ◌^◌, [], List, Option, Some, false, length, IfOk, OnErr, OnOk};
ghost use Rattle.pipe_base.specs.declared.control.Announced.{Announced};
ghost use Rattle.pipe_base.specs.declared.message.Service.TheVariants.{BestEffort, Reliable};
ghost use Rattle.pipe_base.specs.declared.packet.Packet.{Packet as APacket};
ghost use Rattle.pipe_base.specs.Messages.{AreBelow};
ghost use Rattle.pipe_model.specs.Marks.{told_hosts};
ghost use Rattle.pipe_reorder.specs.Buffer.{empty_buffer, passed_by, with_no_buried, with_no_void};
ghost use Rattle.pipe_host.specs.declared.buffers.Buffers.{Buffers as ABuffers};
ghost use Rattle.pipe_host.specs.Buffers.{IsFresh, all_burying, all_joined, all_left, all_noting, buffer_of, fate_among, logged_by, where_mine};

use crate::fates;
use pipe_barrier::Barriers;
use pipe_base::{Control, Fate, Key, LoggedList, NoMemory, Noted, Packet, Service};
use pipe_model::{carries, is_recall, key_of};
use pipe_reorder::Reorder;
use std::alloc::Global;

/// A buffer for each service. Failed hosts and tombstones are in that of reliable messages alone, as no others are void or taken
/// back.
#[derive(Drop)]
pub struct Buffers {
    best: Reorder,
    reliable: Reorder,
}

impl Buffers {
    /// Buffers that hold nothing. Takes no memory.
    pub fn new(alloc: Global) -> Buffers
        ensures { result ≡ record { best = empty_buffer BestEffort; reliable = empty_buffer Reliable } }
    {
        Buffers {
            best: Reorder::new(alloc, Service::BestEffort),
            reliable: Reorder::new(alloc, Service::Reliable),
        }
    }

    /// The buffer of a service.
    pub fn of(&self, service: Service) -> &Reorder
        ensures { result.now ≡ buffer_of service self.now }
    {
        match service {
            Service::BestEffort => &self.best,
            Service::Reliable => &self.reliable,
        }
    }

    /// The failed hosts that are noted.
    pub fn noted(&self) -> &Noted
        ensures { result.now ≡ self.now.reliable.failed }
    {
        self.reliable.failed()
    }

    /// Notes the failed hosts that a control message tells, past the number of those noted, and answers how many.
    pub fn adopt(&mut self, control: &Control) -> Result<usize, NoMemory>
        ensures ok { OnOk result (self.new ≡ all_noting (told_hosts self.old.reliable.failed control.now) self.old) }
        ensures count { IfOk result (λ count. count ≡ length (told_hosts self.old.reliable.failed control.now)) }
        ensures err { OnErr result (self.new ≡ self.old) }
    {
        match control {
            Control::Notice { list } => self.reliable.adopt(list.as_slice()),
            _ => Ok(0),
        }
    }

    /// Notes the last so many failed hosts no more: the way back from an `adopt` that answered this count. Takes no memory.
    pub fn unadopt(&mut self, count: usize)
        ensures { (before : ABuffers) (failed : List Announced) → count ≡ length failed
            → self.old ≡ all_noting failed before → self.new ≡ before }
    {
        self.reliable.unadopt(count);
    }

    /// Holds the messages no more that are void. Takes no memory.
    pub fn drop_void(&mut self)
        ensures { self.new ≡ record self.old { reliable = with_no_void self.old.reliable } }
    {
        self.reliable.drop_void();
    }

    /// Holds the message no more whose tombstone is the newest. Takes no memory.
    pub fn drop_buried(&mut self)
        ensures { self.new ≡ record self.old { reliable = with_no_buried self.old.reliable } }
    {
        self.reliable.drop_buried();
    }

    /// What becomes of the message of a packet that comes now, if it carries one.
    pub fn fate(&self, packet: &Packet) -> Option<Fate>
        ensures value { result ≡ fate_among self.now (Some packet.now) }
        ensures fresh { IsFresh result packet.now self.now }
    {
        if carries(Service::BestEffort, packet.kind) {
            Some(self.best.fate(key_of(packet)))
        } else if carries(Service::Reliable, packet.kind) {
            Some(self.reliable.fate(key_of(packet)))
        } else {
            None
        }
    }

    /// Takes in what a packet brings, which is addressed to the host or not: its message is held, where that is its fate, and
    /// what it takes back from the host gets a tombstone.
    pub fn take_in(
        &mut self,
        fate: Option<Fate>,
        packet: &Packet,
        mine: bool,
    ) -> Result<(), NoMemory>
        ensures ok { OnOk result (self.new ≡ all_joined fate packet.now (all_burying (where_mine mine packet.now) self.old)) }
        ensures err { OnErr result (self.new ≡ self.old) }
    {
        if is_recall(packet.kind) && mine {
            self.reliable.bury(key_of(packet))
        } else {
            self.hold(fate, packet)?;
            self.reliable.forget_newest();
            Ok(())
        }
    }

    /// The tombstone that is the newest.
    pub fn newest(&self) -> Option<Key>
        ensures { result ≡ self.now.reliable.newest }
    {
        self.reliable.newest()
    }

    /// Holds the message of a packet whose fate is held.
    fn hold(&mut self, fate: Option<Fate>, packet: &Packet) -> Result<(), NoMemory>
        ensures ok { OnOk result (self.new ≡ all_joined fate packet.now self.old) }
        ensures err { OnErr result (self.new ≡ self.old) }
    {
        if carries(Service::BestEffort, packet.kind) {
            fates::hold(&mut self.best, fate, packet)
        } else if carries(Service::Reliable, packet.kind) {
            fates::hold(&mut self.reliable, fate, packet)
        } else {
            Ok(())
        }
    }

    /// Takes out again what `take_in` took in of this packet, where this tombstone was the newest before. Takes no memory.
    pub fn give_back(&mut self, fate: Option<Fate>, packet: &Packet, newest: Option<Key>)
        ensures { (before : ABuffers) (got : Option APacket) → newest ≡ before.reliable.newest
            → IsFresh fate packet.now before
            → self.old ≡ all_joined fate packet.now (all_burying got before) → self.new ≡ before }
    {
        self.let_go(fate, packet);
        self.reliable.unbury(newest);
    }

    /// Holds no more what `hold` holds for this packet. Takes no memory.
    fn let_go(&mut self, fate: Option<Fate>, packet: &Packet)
        ensures { (before : ABuffers) → IsFresh fate packet.now before → self.old ≡ all_joined fate packet.now before
            → self.new ≡ before }
    {
        if carries(Service::BestEffort, packet.kind) {
            fates::let_go(&mut self.best, fate, packet);
        } else if carries(Service::Reliable, packet.kind) {
            fates::let_go(&mut self.reliable, fate, packet);
        }
    }

    /// Whether a held message is below the barrier of its service. Where none is, the barriers let nothing out.
    pub fn has_below(&self, barriers: Barriers) -> bool
        ensures { result ≡ false → logged_by barriers self.now ≡ [] }
    {
        self.best.has_below(barriers.be) || self.reliable.has_below(barriers.commit)
    }

    /// Appends the held messages below the barrier of their service that are not void and have no tombstone, best effort first.
    pub fn copy_passed(&self, barriers: Barriers, out: &mut LoggedList) -> Result<(), NoMemory>
        ensures ok { OnOk result (out.new ≡ (out.old ++ passed_by barriers.be.0 self.now.best) ++ passed_by barriers.commit.0 self.now.reliable) }
        ensures within { OnOk result (AreBelow (2 ^ 64 - 1) out.old → AreBelow (2 ^ 64 - 1) out.new) }
    {
        self.best.copy_passed(barriers.be, out)?;
        self.reliable.copy_passed(barriers.commit, out)
    }

    /// Holds the messages below the barrier of their service no more. Takes no memory.
    pub fn drop_passed(&mut self, barriers: Barriers)
        ensures { self.new ≡ all_left barriers self.old }
    {
        self.best.drop_passed(barriers.be);
        self.reliable.drop_passed(barriers.commit);
    }

    pub fn try_clone(&self) -> Result<Buffers, NoMemory>
        ensures { IfOk result (λ copy. copy ≡ self.now) }
    {
        Ok(Buffers {
            best: self.best.try_clone()?,
            reliable: self.reliable.try_clone()?,
        })
    }
}
