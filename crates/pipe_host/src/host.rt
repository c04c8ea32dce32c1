// A host.
ghost use Rattle.std.specs.Prelude.{◌≡◌, ◌∷◌, ◌<◌, ◌≤◌, [], ℕ, Bool, List, true, length, IfOk, OnErr, OnOk};
ghost use Rattle.pipe_graph.specs.Graph.{Graph, ins_of, is_host};
ghost use Rattle.pipe_base.specs.Limits.{most_receivers};
ghost use Rattle.pipe_base.specs.Moment.{has_link};
ghost use Rattle.pipe_base.specs.Step.{quiet_step};
ghost use Rattle.pipe_barrier.specs.Registers as registers;
ghost use Rattle.pipe_links.specs.Links as links;
ghost use Rattle.pipe_model.specs.declared.record.Record.{Record as ARecord};
ghost use Rattle.pipe_model.specs.Acting.{ComesIn};
ghost use Rattle.pipe_model.specs.Clock.{next, promise};
ghost use Rattle.pipe_model.specs.Moments.{moments_of, noted_hosts};
ghost use Rattle.pipe_model.specs.Run.{IsNodeStep};
ghost use Rattle.pipe_model.specs.Sender.{sender_calls};
ghost use Rattle.pipe_relsend.specs.Sending as sending;
ghost use Rattle.pipe_host.specs.Host.{Does, Stands, StandsWith, buffer_for};
ghost use Rattle.pipe_model.specs.Records.{told, sent, taken, ticked};

use crate::buffers::Buffers;
use crate::records::{give_back, hear, let_out, note, take_back};
use crate::times::follow;
use pipe_barrier::Registers;
use pipe_base::{
    Addressed, Control, DestList, HostId, LinkId, NoMemory, NodeId, Noted, Outcome, Packet,
    PutRoom, Service, Step, To, Ts,
};
use pipe_clock::HostClock;
use pipe_links::Links;
use pipe_model::{Event, Record, Took};
use pipe_relsend::Sender;
use pipe_reorder::Reorder;
use pipe_topo::Topology;
use std::alloc::Global;

/// A host: the registers of the links into it and the ways out of it, its clock, the sender of its reliable scatterings, the
/// messages that it holds, and the failed hosts that it has noted. Contracts speak of any records of its own for which it stands.
///
/// A step goes in two phases, for a caller that may still refuse it: `work_send`, `work_take`, `work_tick` or `work_control`
/// works it out, and then either `follow` takes its record over or `undo` gives back what was held, noted, begun or set aside
/// for it. `send`, `take`, `tick` and `control` are both phases in one call.
#[derive(Drop)]
pub struct Host {
    pub(crate) alloc: Global,
    pub(crate) links: Links,
    pub(crate) clock: HostClock,
    pub(crate) sender: Sender,
    pub(crate) held: Buffers,
}

impl Host {
    /// A host to which nothing has happened.
    pub fn new(alloc: Global, topology: &Topology, host: HostId) -> Result<Host, NoMemory>
        requires node { host.0 < topology.now.nodes }
        requires host { is_host topology.now host.0 ≡ true }
        ensures { IfOk result (Stands topology.now host.0 []) }
    {
        Ok(Host {
            alloc,
            links: Links::new(alloc, topology, NodeId(host.0))?,
            clock: HostClock::new(topology.top()),
            sender: Sender::new(alloc)?,
            held: Buffers::new(alloc),
        })
    }

    pub fn host(&self) -> HostId
        ensures value { result.0 ≡ self.now.links.node.0 }
        ensures stands { (graph : Graph) (node : ℕ) (own : List ARecord) → Stands graph node own self.now
            → result.0 ≡ node }
    {
        HostId(self.links.node().0)
    }

    /// The next timestamp.
    pub fn next(&self) -> Ts
        ensures value { result ≡ self.now.clock.next }
        ensures stands { (graph : Graph) (node : ℕ) (own : List ARecord) → Stands graph node own self.now
            → result.0 ≡ next graph node own }
    {
        self.clock.next()
    }

    /// What the host promises: no reliable scattering below it is undecided.
    pub fn promise(&self) -> Ts
        ensures { (graph : Graph) (node : ℕ) (own : List ARecord) → Stands graph node own self.now
            → result.0 ≡ promise graph node own }
    {
        self.sender.promise(self.clock.next())
    }

    /// The registers of the links into the host.
    pub fn registers(&self) -> &Registers
        ensures { (graph : Graph) (node : ℕ) (own : List ARecord) → Stands graph node own self.now
            → registers.Stands (ins_of graph node) result.now (moments_of graph node own) }
    {
        self.links.registers()
    }

    /// The messages of a service that are held: from the barrier of its plane on, without those that are void or were taken
    /// back.
    pub fn held(&self, service: Service) -> &Reorder
        ensures { (graph : Graph) (node : ℕ) (own : List ARecord) → Stands graph node own self.now
            → result.now ≡ buffer_for service graph node own }
    {
        self.held.of(service)
    }

    /// The failed hosts that are noted, in the order in which the host came to know of them.
    pub fn noted(&self) -> &Noted
        ensures { (graph : Graph) (node : ℕ) (own : List ARecord) → Stands graph node own self.now
            → result.now ≡ noted_hosts own }
    {
        self.held.noted()
    }

    /// The sender: the reliable scatterings that are not settled.
    pub fn sender(&self) -> &Sender
        ensures { (graph : Graph) (node : ℕ) (own : List ARecord) → Stands graph node own self.now
            → sending.Stands (sender_calls graph node own) result.now }
    {
        &self.sender
    }

    /// Takes over the record of a step that was worked out. Takes no memory.
    pub fn follow(&mut self, made: &Record)
        ensures { (graph : Graph) (node : ℕ) (own : List ARecord) → StandsWith graph node own made.now self.old
            → ComesIn graph node made.now.event → IsNodeStep graph node own made.now
            → Stands graph node (made.now ∷ own) self.new }
    {
        hear(&mut self.sender, &self.links, made);
        self.links.follow(made);
        follow(&mut self.clock, made);
        let_out(&mut self.held, self.links.barriers(), made);
        note(&mut self.sender, self.held.noted(), made);
    }

    /// Gives back what was held, noted, begun or set aside for a step that was worked out and is refused. Takes no memory.
    pub fn undo(&mut self, made: &Record)
        ensures { (graph : Graph) (node : ℕ) (own : List ARecord) → StandsWith graph node own made.now self.old
            → IsNodeStep graph node own made.now → Stands graph node own self.new }
    {
        self.links.undo();
        give_back(&mut self.held, made);
        take_back(&mut self.sender, made);
    }

    /// Sends a scattering. The step is empty first, and after want of memory, which changes nothing.
    pub fn send(
        &mut self,
        service: Service,
        now: Ts,
        dests: DestList,
        step: &mut Step,
    ) -> Result<(), NoMemory>
        requires some { 0 < length dests }
        requires few { length dests ≤ most_receivers }
        ensures ok { OnOk result ((graph : Graph) (host : HostId) (own : List ARecord)
            → Stands graph host.0 own self.old
            → Does graph host.0 own (sent host service now dests step.new) self.new) }
        ensures err { OnErr result ((self.new ≡ self.old) × (step.new ≡ quiet_step Outcome.Ok)) }
    {
        *step = Step::new(self.alloc);
        let room = PutRoom::new(self.alloc)?;
        let worked = self.work_send(service, now, &dests)?;
        let record = Record {
            event: Event::Send {
                host: HostId(self.links.node().0),
                service,
                now,
                dests,
            },
            took: Took::Nothing,
            step: worked,
        };
        self.follow(&record);
        *step = record.step.into_step(self.alloc, room);
        Ok(())
    }

    /// Takes a packet from a link into the host. The step is empty first, and after want of memory, which changes nothing.
    pub fn take(&mut self, link: LinkId, packet: Packet, step: &mut Step) -> Result<(), NoMemory>
        ensures ok { OnOk result ((graph : Graph) (node : ℕ) (own : List ARecord) (place : ℕ) (keep : Bool)
            → Stands graph node own self.old
            → has_link link.0 (ins_of graph node) ≡ true
            → Does graph node own (taken link packet place keep step.new) self.new) }
        ensures err { OnErr result ((self.new ≡ self.old) × (step.new ≡ quiet_step Outcome.Ok)) }
    {
        *step = Step::new(self.alloc);
        let room = PutRoom::new(self.alloc)?;
        let worked = self.work_take(link, &packet)?;
        let record = Record {
            event: Event::Take {
                link,
                place: 0,
                keep: false,
            },
            took: Took::Link { link, packet },
            step: worked,
        };
        self.follow(&record);
        *step = record.step.into_step(self.alloc, room);
        Ok(())
    }

    /// The host's clock reads `now`. The step is empty first, and after want of memory, which changes nothing.
    pub fn tick(&mut self, now: Ts, step: &mut Step) -> Result<(), NoMemory>
        ensures ok { OnOk result ((graph : Graph) (node : NodeId) (own : List ARecord)
            → Stands graph node.0 own self.old
            → Does graph node.0 own (ticked node now step.new) self.new) }
        ensures err { OnErr result ((self.new ≡ self.old) × (step.new ≡ quiet_step Outcome.Ok)) }
    {
        *step = Step::new(self.alloc);
        let room = PutRoom::new(self.alloc)?;
        let worked = self.work_tick(now)?;
        let record = Record {
            event: Event::Tick {
                node: self.links.node(),
                now,
            },
            took: Took::Nothing,
            step: worked,
        };
        self.follow(&record);
        *step = record.step.into_step(self.alloc, room);
        Ok(())
    }

    /// Takes a control message to the host in this topology. The step is empty first, and after want of memory, which changes
    /// nothing.
    pub fn control(
        &mut self,
        topology: &Topology,
        control: Control,
        step: &mut Step,
    ) -> Result<(), NoMemory>
        requires { self.old.links.node.0 < topology.now.nodes }
        ensures ok { OnOk result ((node : NodeId) (own : List ARecord) (place : ℕ) (keep : Bool)
            → Stands topology.now node.0 own self.old
            → Does topology.now node.0 own (told node control place keep step.new) self.new) }
        ensures err { OnErr result ((self.new ≡ self.old) × (step.new ≡ quiet_step Outcome.Ok)) }
    {
        *step = Step::new(self.alloc);
        let room = PutRoom::new(self.alloc)?;
        let worked = self.work_control(topology, &control)?;
        let record = Record {
            event: Event::ControlTake {
                place: 0,
                keep: false,
            },
            took: Took::Message {
                addressed: Addressed {
                    to: To::Node(self.links.node()),
                    control,
                },
            },
            step: worked,
        };
        self.follow(&record);
        *step = record.step.into_step(self.alloc, room);
        Ok(())
    }

    pub fn try_clone(&self) -> Result<Host, NoMemory>
        ensures { IfOk result (λ copy. copy ≡ self.now) }
    {
        Ok(Host {
            alloc: self.alloc,
            links: self.links.try_clone()?,
            clock: self.clock,
            sender: self.sender.try_clone()?,
            held: self.held.try_clone()?,
        })
    }
}
