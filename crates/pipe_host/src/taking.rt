// How a host works out the taking of a packet.
ghost use Rattle.std.specs.Prelude.{◌≡◌, ◌<◌, ◌-◌, ◌^◌, ℕ, Bool, List, Some, true, IfOk, OnErr, OnOk};
ghost use Rattle.pipe_base.specs.Fate.{is_holding};
ghost use Rattle.pipe_graph.specs.Graph.{Graph, ins_of};
ghost use Rattle.pipe_base.specs.Messages.{AreBelow};
ghost use Rattle.pipe_base.specs.Moment.{has_link};
ghost use Rattle.pipe_base.specs.Packets.{Fields, ack_to};
ghost use Rattle.pipe_graph.specs.ShortestRoute.{route};
ghost use Rattle.pipe_base.specs.Ways.{with_ways};
ghost use Rattle.pipe_links.specs.Links as links;
ghost use Rattle.pipe_model.specs.declared.record.Record.{Record};
ghost use Rattle.pipe_model.specs.Got.{gets_of};
ghost use Rattle.pipe_model.specs.Moments.{known_drops};
ghost use Rattle.pipe_host.specs.Buffers.{IsFresh, fate_among};
ghost use Rattle.pipe_host.specs.Host.{Stands, Works};
ghost use Rattle.pipe_host.specs.Steps.{IsReceipt, answers_as, answers_for, fields_after, response};
ghost use Rattle.pipe_model.specs.Records.{taken};

use crate::host::Host;
use crate::times::deliver;
use pipe_barrier::Barriers;
use pipe_base::{
    Body, Entry, Fate, HostId, KeptStep, LinkId, NoMemory, Outcome, Packet, PacketKind, Service,
    Step,
};
use pipe_model::{carries, is_recall};

impl Host {
    /// Works out what the taking of a packet from a link into the host does. Nothing changes but that the message that the
    /// packet brings is held, where that is its fate, and that what it takes back has its tombstone. A packet on a link that is
    /// not up is ignored.
    pub fn work_take(&mut self, link: LinkId, packet: &Packet) -> Result<KeptStep, NoMemory>
        ensures ok { IfOk result (λ step. (graph : Graph) (node : ℕ) (own : List Record) (place : ℕ) (keep : Bool)
            → Stands graph node own self.old
            → has_link link.0 (ins_of graph node) ≡ true
            → Works graph node own (taken link packet.now place keep step) self.new) }
        ensures err { OnErr result (self.new ≡ self.old) }
    {
        if !self.links.is_up(link) {
            return Ok(KeptStep::quiet(Outcome::Ignored));
        }
        let fate = self.fate(packet);
        let mine = packet.dst.0 == self.links.node().0;
        let newest = self.held.newest();
        self.held.take_in(fate, packet, mine)?;
        match self.receive(link, packet, fate) {
            Ok(step) => Ok(step),
            Err(NoMemory) => {
                self.held.give_back(fate, packet, newest);
                Err(NoMemory)
            }
        }
    }

    /// What becomes of the message that the packet brings to the host, if it brings one.
    fn fate(&self, packet: &Packet) -> Option<Fate>
        ensures value { (graph : Graph) (node : ℕ) (own : List Record) (link : LinkId) → Stands graph node own self.now
            → result ≡ fate_among self.now.held (gets_of graph node (Some (link.0, packet.now))) }
        ensures fresh { IsFresh result packet.now self.now.held }
    {
        if packet.dst.0 == self.links.node().0 {
            self.held.fate(packet)
        } else {
            None
        }
    }

    /// The step of a packet that was received, where what it brings is in the buffers already.
    fn receive(
        &self,
        link: LinkId,
        packet: &Packet,
        fate: Option<Fate>,
    ) -> Result<KeptStep, NoMemory>
        ensures { IfOk result (IsReceipt self.now link packet.now fate) }
    {
        let barriers = self.links.barriers_with(link, packet);
        if self.held.has_below(barriers) || self.answer(packet, fate).is_some() {
            self.respond(barriers, packet, fate)
        } else {
            Ok(KeptStep::fated(fate))
        }
    }

    /// The step of a packet that was received and leads to these barriers: what they pass is logged, and the packet is answered.
    fn respond(
        &self,
        barriers: Barriers,
        packet: &Packet,
        fate: Option<Fate>,
    ) -> Result<KeptStep, NoMemory>
        ensures { IfOk result (λ step. (graph : Graph) (node : ℕ) (own : List Record)
            → links.Stands graph node own self.now.links
            → step ≡ response graph node own barriers self.now fate packet.now) }
    {
        let mut step = Step::new(self.alloc);
        step.fate = fate;
        self.held.copy_passed(barriers, &mut step.logged)?;
        self.put_answer(packet, fate, &mut step)?;
        step.keep(self.alloc)
    }

    /// Puts the answer to a packet, if it is answered.
    fn put_answer(
        &self,
        packet: &Packet,
        fate: Option<Fate>,
        step: &mut Step,
    ) -> Result<(), NoMemory>
        requires room { step.old.unrouted < 4294967295 }
        ensures ok { OnOk result ((graph : Graph) (node : ℕ) (own : List Record)
            → links.Stands graph node own self.now.links → AreBelow (2 ^ 64 - 1) step.old.logged
            → step.new ≡ with_ways (route graph (known_drops own) node)
            (answers_for (record { 0 = node }) (fields_after step.old.logged self.now) fate packet.now) step.old) }
    {
        let Some(kind) = self.answer(packet, fate) else {
            return Ok(());
        };
        let answer = self.answering(kind, packet, step.logged.as_slice());
        self.links.put_on_way(answer, step)
    }

    /// How a packet is answered: a reliable message that is held by an acknowledgement, and a recall of a message here always.
    fn answer(&self, packet: &Packet, fate: Option<Fate>) -> Option<PacketKind>
        ensures { (f : Fields) → answers_as result (record { 0 = self.now.links.node.0 }) f packet.now
            ≡ answers_for (record { 0 = self.now.links.node.0 }) f fate packet.now }
    {
        if carries(Service::Reliable, packet.kind) && is_holding(fate) {
            Some(PacketKind::Ack)
        } else if packet.dst.0 == self.links.node().0 && is_recall(packet.kind) {
            Some(PacketKind::RecallAck)
        } else {
            None
        }
    }

    /// The answer of this kind to a packet, by a step that logged these entries. The packet itself settles nothing.
    fn answering(&self, kind: PacketKind, packet: &Packet, logged: &[(Service, Entry)]) -> Packet
        ensures { AreBelow (2 ^ 64 - 1) logged.now
            → result ≡ record (ack_to (record { 0 = self.now.links.node.0 }) (fields_after logged.now self.now) packet.now) { kind = kind } }
    {
        let mut clock = self.clock;
        deliver(&mut clock, logged);
        let be = clock.next();
        Packet {
            kind,
            src: HostId(self.links.node().0),
            dst: packet.src,
            ts: packet.ts,
            be,
            commit: self.sender.promise(be),
            body: Body::empty(self.alloc),
        }
    }
}

/// Whether a message with this fate is held.
fn is_holding(fate: Option<Fate>) -> bool
    ensures { result ≡ is_holding fate }
{
    matches!(fate, Some(Fate::Held | Fate::Repeat))
}
