// A half of a switch.
ghost use Rattle.std.specs.Prelude.{◌≡◌, ◌∷◌, ◌<◌, [], ℕ, Bool, List, true, false, IfOk, OnErr, OnOk};
ghost use Rattle.pipe_graph.specs.Graph.{Graph, ins_of, is_half};
ghost use Rattle.pipe_base.specs.Moment.{has_link};
ghost use Rattle.pipe_base.specs.Packets.{forwarded};
ghost use Rattle.pipe_base.specs.Step.{quiet_step};
ghost use Rattle.pipe_barrier.specs.Registers as registers;
ghost use Rattle.pipe_model.specs.declared.record.Record.{Record as ARecord};
ghost use Rattle.pipe_model.specs.Acting.{ComesIn};
ghost use Rattle.pipe_model.specs.Got.{is_beacon};
ghost use Rattle.pipe_model.specs.Moments.{moments_of};
ghost use Rattle.pipe_model.specs.Run.{IsNodeStep};
ghost use Rattle.pipe_switch.specs.Half.{Does, IsPassing, Stands, StandsWith, Works, beat};
ghost use Rattle.pipe_model.specs.Records.{told, taken, ticked};

use pipe_barrier::{Barriers, Registers};
use pipe_base::{
    Addressed, AddressedList, Control, DownList, KeptStep, LinkId, NoMemory, NodeId, Outcome,
    Packet, PacketKind, PutRoom, Step, To, Ts,
};
use pipe_links::Links;
use pipe_model::{Event, Record, Took, is_beacon};
use pipe_topo::Topology;
use std::alloc::Global;

/// A half of a switch: the registers of the links into it, and the ways out of it by the links that it does not know as
/// dropped. Contracts speak of any records of its own for which it stands.
///
/// A step goes in two phases, for a caller that may still refuse it: `work_take`, `work_tick` or `work_control` works it out,
/// and then either `follow` takes its record over or `undo` gives back what was made for it. `take`, `tick` and `control` are
/// both phases in one call.
#[derive(Clone, Drop)]
pub struct Half {
    alloc: Global,
    links: Links,
}

impl Half {
    /// A half to which nothing has happened.
    pub fn new(alloc: Global, topology: &Topology, node: NodeId) -> Result<Half, NoMemory>
        requires node { node.0 < topology.now.nodes }
        requires half { is_half topology.now node.0 ≡ true }
        ensures { IfOk result (Stands topology.now node.0 []) }
    {
        Ok(Half {
            alloc,
            links: Links::new(alloc, topology, node)?,
        })
    }

    pub fn node(&self) -> NodeId
        ensures value { result ≡ self.now.links.node }
        ensures stands { (graph : Graph) (node : ℕ) (own : List ARecord) → Stands graph node own self.now
            → result.0 ≡ node }
    {
        self.links.node()
    }

    /// The registers of the links into the half.
    pub fn registers(&self) -> &Registers
        ensures { (graph : Graph) (node : ℕ) (own : List ARecord) → Stands graph node own self.now
            → registers.Stands (ins_of graph node) result.now (moments_of graph node own) }
    {
        self.links.registers()
    }

    /// Works out what the taking of a packet from a link into the half does. Nothing changes. A packet on a link that is
    /// not up is ignored; any other raises the registers, and goes on with the half's own barriers unless it is a beacon.
    pub fn work_take(&self, link: LinkId, packet: &Packet) -> Result<KeptStep, NoMemory>
        ensures { IfOk result (λ step. (graph : Graph) (node : ℕ) (own : List ARecord) (place : ℕ) (keep : Bool)
            → Stands graph node own self.now
            → has_link link.0 (ins_of graph node) ≡ true
            → Works graph node own (taken link packet.now place keep step) self.now) }
    {
        if !self.links.is_up(link) {
            return Ok(KeptStep::quiet(Outcome::Ignored));
        }
        if is_beacon(packet.kind) {
            return Ok(KeptStep::quiet(Outcome::Ok));
        }
        self.pass_on(link, packet)
    }

    /// The step of a packet that was received and is no beacon.
    fn pass_on(&self, link: LinkId, packet: &Packet) -> Result<KeptStep, NoMemory>
        requires { is_beacon packet.now.kind ≡ false }
        ensures { IfOk result (IsPassing self.now link packet.now) }
    {
        let barriers = self.links.barriers_with(link, packet);
        let packet = forwarded(packet, barriers)?;
        self.links.send_on_way(self.alloc, packet)
    }

    /// Works out what a tick does. Nothing changes. Links that were silent for the patience go down, and a beacon with the
    /// barriers after that is put on each link out of the half that is not known as dropped. The controller is told of each
    /// in-link that is down then and not dropped, and how many dropped links the half knows.
    pub fn work_tick(&self, now: Ts) -> Result<KeptStep, NoMemory>
        ensures { IfOk result (λ step. (graph : Graph) (node : NodeId) (own : List ARecord)
            → Stands graph node.0 own self.now
            → Works graph node.0 own (ticked node now step) self.now) }
    {
        let downed = self.links.silent_marks(self.alloc, now)?;
        let mut told = self.links.downs_with(self.alloc, &downed)?;
        self.links.tell_gone(&mut told)?;
        let barriers = self.links.barriers_without(&downed)?;
        self.beat(downed, told, barriers)
    }

    /// The step that takes these links down, tells the controller this, and puts a beacon with these barriers on each link out.
    /// Mostly there are beacons alone, which takes no step in lists.
    fn beat(
        &self,
        downed: DownList,
        told: AddressedList,
        barriers: Barriers,
    ) -> Result<KeptStep, NoMemory>
        ensures { IfOk result (λ step. step ≡ beat self.now.links.ways.outs barriers downed told) }
    {
        if downed.is_empty() && told.is_empty() {
            return self
                .links
                .send_beacons(self.alloc, barriers.be, barriers.commit);
        }
        let mut step = Step::new(self.alloc);
        step.downed = downed;
        step.control = told;
        self.links
            .put_beacons(self.alloc, barriers.be, barriers.commit, &mut step)?;
        step.keep(self.alloc)
    }

    /// Works out what a control message to the half does. A freeze takes its link down, where that is an in-link that is up.
    /// Of dropped links the half comes to know those past the number of those known: for them the ways are made anew and set
    /// aside, and nothing else changes. Any other message does nothing. For more than 65,535 known links there is no memory.
    pub fn work_control(
        &mut self,
        topology: &Topology,
        control: &Control,
    ) -> Result<KeptStep, NoMemory>
        requires node { self.old.links.node.0 < topology.now.nodes }
        ensures ok { IfOk result (λ step. (node : NodeId) (own : List ARecord) (place : ℕ) (keep : Bool)
            → Stands topology.now node.0 own self.old
            → Works topology.now node.0 own (told node control.now place keep step) self.new) }
        ensures err { OnErr result (self.new ≡ self.old) }
    {
        let mut step = Step::new(self.alloc);
        step.downed = self.links.told_marks(self.alloc, control)?;
        step.dropped = self.links.told_drops(self.alloc, control)?;
        let ahead = self.links.ways_with(self.alloc, topology, &step.dropped)?;
        let worked = step.keep(self.alloc)?;
        self.links.prepare(ahead);
        Ok(worked)
    }

    /// Takes over the record of a step that was worked out. Takes no memory.
    pub fn follow(&mut self, made: &Record)
        ensures { (graph : Graph) (node : ℕ) (own : List ARecord) → StandsWith graph node own made.now self.old
            → ComesIn graph node made.now.event
            → IsNodeStep graph node own made.now → Stands graph node (made.now ∷ own) self.new }
    {
        self.links.follow(made);
    }

    /// Gives back what was made for a step that was worked out and is refused. Takes no memory.
    pub fn undo(&mut self)
        ensures { (graph : Graph) (node : ℕ) (own : List ARecord) (made : ARecord)
            → StandsWith graph node own made self.old → Stands graph node own self.new }
    {
        self.links.undo();
    }

    /// Takes a packet from a link into the half. The step is empty first, and after want of memory, which changes nothing.
    pub fn take(&mut self, link: LinkId, packet: Packet, step: &mut Step) -> Result<(), NoMemory>
        ensures ok { OnOk result ((graph : Graph) (node : ℕ) (own : List ARecord) (place : ℕ) (keep : Bool)
            → Stands graph node own self.old
            → has_link link.0 (ins_of graph node) ≡ true
            → Does graph node own (taken link packet place keep step.new) self.new) }
        ensures err { OnErr result ((self.new ≡ self.old) × (step.new ≡ quiet_step Outcome.Ok)) }
    {
        *step = Step::new(self.alloc);
        let room = PutRoom::new(self.alloc)?;
        let record = Record {
            event: Event::Take {
                link,
                place: 0,
                keep: false,
            },
            step: self.work_take(link, &packet)?,
            took: Took::Link { link, packet },
        };
        self.links.follow(&record);
        *step = record.step.into_step(self.alloc, room);
        Ok(())
    }

    /// The half's clock reads `now`. The step is empty first, and after want of memory, which changes nothing.
    pub fn tick(&mut self, now: Ts, step: &mut Step) -> Result<(), NoMemory>
        ensures ok { OnOk result ((graph : Graph) (node : NodeId) (own : List ARecord)
            → Stands graph node.0 own self.old
            → Does graph node.0 own (ticked node now step.new) self.new) }
        ensures err { OnErr result ((self.new ≡ self.old) × (step.new ≡ quiet_step Outcome.Ok)) }
    {
        *step = Step::new(self.alloc);
        let room = PutRoom::new(self.alloc)?;
        let record = Record {
            event: Event::Tick {
                node: self.links.node(),
                now,
            },
            step: self.work_tick(now)?,
            took: Took::Nothing,
        };
        self.links.follow(&record);
        *step = record.step.into_step(self.alloc, room);
        Ok(())
    }

    /// Takes a control message to the half, whose topology is at hand. The step is empty first, and after want of memory, which
    /// changes nothing.
    pub fn control(
        &mut self,
        topology: &Topology,
        control: Control,
        step: &mut Step,
    ) -> Result<(), NoMemory>
        requires node { self.old.links.node.0 < topology.now.nodes }
        ensures ok { OnOk result ((node : NodeId) (own : List ARecord) (place : ℕ) (keep : Bool)
            → Stands topology.now node.0 own self.old
            → Does topology.now node.0 own (told node control place keep step.new) self.new) }
        ensures err { OnErr result ((self.new ≡ self.old) × (step.new ≡ quiet_step Outcome.Ok)) }
    {
        *step = Step::new(self.alloc);
        let room = PutRoom::new(self.alloc)?;
        let worked = self.work_control(topology, &control)?;
        let record = Record {
            event: Event::ControlTake {
                place: 0,
                keep: false,
            },
            took: Took::Message {
                addressed: Addressed {
                    to: To::Node(self.links.node()),
                    control,
                },
            },
            step: worked,
        };
        self.links.follow(&record);
        *step = record.step.into_step(self.alloc, room);
        Ok(())
    }

    pub fn try_clone(&self) -> Result<Half, NoMemory>
        ensures { IfOk result (λ copy. copy ≡ self.now) }
    {
        Ok(Half {
            alloc: self.alloc,
            links: self.links.try_clone()?,
        })
    }
}

/// The packet as the half passes it on: with the half's own barriers.
fn forwarded(packet: &Packet, barriers: Barriers) -> Result<Packet, NoMemory>
    ensures { IfOk result (λ copy. copy ≡ forwarded (record { be = barriers.be.0; commit = barriers.commit.0 }) packet.now) }
{
    let mut copy = packet.try_clone()?;
    copy.be = barriers.be;
    copy.commit = barriers.commit;
    Ok(copy)
}
