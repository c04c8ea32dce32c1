// The links of one node.
ghost use Rattle.std.specs.Prelude.{◌≡◌, ◌&&◌, ◌∷◌, ◌++◌, ◌<◌, [], ℕ, List, None, true, unwrap_or, IfOk, OnErr, OnOk};
ghost use Rattle.std.specs.Option.{option_map};
ghost use Rattle.pipe_graph.specs.Graph.{Graph, ins_of};
ghost use Rattle.pipe_base.specs.Moment.{Received, has_link, is_up, with_downed};
ghost use Rattle.pipe_base.specs.Entries.{with_entries};
ghost use Rattle.pipe_base.specs.Moment as moment;
ghost use Rattle.pipe_graph.specs.ShortestRoute.{route};
ghost use Rattle.pipe_base.specs.Silence.{silent_marks};
ghost use Rattle.pipe_base.specs.Step.{quiet_step};
ghost use Rattle.pipe_base.specs.Ways.{PutsAlone, with_beacons, with_ways};
ghost use Rattle.pipe_barrier.specs.Registers.{AreBarriers, downs};
ghost use Rattle.pipe_barrier.specs.Registers as registers;
ghost use Rattle.pipe_model.specs.declared.record.Record.{Record as ARecord};
ghost use Rattle.pipe_model.specs.Acting.{ComesIn};
ghost use Rattle.pipe_model.specs.Duties.{gone_told};
ghost use Rattle.pipe_model.specs.Marks.{told_drops, told_marks};
ghost use Rattle.pipe_model.specs.Moments.{known_drops, moments_of, quiet_calls, received, tick_of};
ghost use Rattle.pipe_model.specs.Run.{IsNodeStep};
ghost use Rattle.pipe_links.specs.Links.{AreBarriersAt, InsStand, Stands, StandsWith, is_ignored, next_ways, receipt_of};
ghost use Rattle.pipe_links.specs.Ways.{AreWays};

use crate::ways::Ways;
use pipe_barrier::{Barriers, InLinks, Registers};
use pipe_base::{
    Addressed, AddressedList, Control, DownList, KeptStep, LinkId, LinkList, List, NoMemory,
    NodeId, Outcome, Packet, Step, To, Told, Ts,
};
use pipe_model::{Event, Record, Took};
use pipe_route::Routes;
use pipe_topo::Topology;
use std::alloc::Global;

/// What one node keeps of its links. Contracts speak of any records of its own for which they stand.
///
/// A control message that tells of dropped links makes the ways anew, which takes memory. So that is done while its step is
/// worked out: `ways_with` makes them, `prepare` sets them aside, and then either `follow` or `undo` says whether they hold.
#[derive(Clone, Drop)]
pub struct Links {
    node: NodeId,
    ins: InLinks,
    ways: Ways,
    ahead: Option<Ways>,
}

/// A packet was received on the link with these barriers.
#[derive(Clone, Copy)]
pub struct Receipt {
    link: LinkId,
    be: Ts,
    commit: Ts,
}

impl Links {
    /// The links of a node to which nothing has happened.
    pub fn new(alloc: Global, topology: &Topology, node: NodeId) -> Result<Links, NoMemory>
        requires { node.0 < topology.now.nodes }
        ensures { IfOk result (Stands topology.now node.0 []) }
    {
        Ok(Links {
            node,
            ins: InLinks::new(alloc, topology.ins(node), topology.patience())?,
            ways: Ways::new(alloc, topology, node, Told::new(alloc))?,
            ahead: None,
        })
    }

    pub fn node(&self) -> NodeId
        ensures { result ≡ self.now.node }
    {
        self.node
    }

    /// The routes by the links that are not known as dropped.
    pub fn routes(&self) -> &Routes
        ensures { result.now ≡ self.now.ways.routes }
    {
        &self.ways.routes
    }

    /// The registers of the in-links.
    pub fn registers(&self) -> &Registers
        ensures value { result.now ≡ self.now.ins.registers }
        ensures stands { (graph : Graph) (node : ℕ) (own : List ARecord) → Stands graph node own self.now
            → registers.Stands (ins_of graph node) result.now (moments_of graph node own) }
    {
        self.ins.registers()
    }

    /// Whether the link is an in-link that is up.
    pub fn is_up(&self, link: LinkId) -> bool
        ensures { (graph : Graph) (node : ℕ) (own : List ARecord) → Stands graph node own self.now
            → result ≡ (has_link link.0 (ins_of graph node) && is_up (moments_of graph node own) link.0) }
    {
        self.ins.is_up(link)
    }

    /// The two barriers of the node.
    pub fn barriers(&self) -> Barriers
        ensures be { result.be.0 ≡ self.now.ins.registers.be }
        ensures commit { result.commit.0 ≡ self.now.ins.registers.commit }
        ensures are { (graph : Graph) (node : ℕ) (own : List ARecord) → Stands graph node own self.now
            → AreBarriersAt graph node own result }
    {
        self.ins.barriers()
    }

    /// The barriers that a packet received on the link would lead to.
    pub fn barriers_with(&self, link: LinkId, packet: &Packet) -> Barriers
        ensures { (graph : Graph) (node : ℕ) (own : List ARecord) → Stands graph node own self.now
            → AreBarriers (ins_of graph node) (Received link.0 packet.now.be.0 packet.now.commit.0 ∷ moments_of graph node own) result }
    {
        self.ins.barriers_with(link, packet.be, packet.commit)
    }

    /// The in-links that go down at a tick that reads `now`, each with its frozen value.
    pub fn silent_marks(&self, alloc: Global, now: Ts) -> Result<DownList, NoMemory>
        ensures { IfOk result (λ marks. (graph : Graph) (node : ℕ) (own : List ARecord) → Stands graph node own self.now
            → marks ≡ silent_marks graph.patience (ins_of graph node) (moments_of graph node own) (quiet_calls graph node own) now.0) }
    {
        self.ins.silent_marks(alloc, now)
    }

    /// The in-links that a control message takes down, each with its frozen value: a freeze its link, where that is an
    /// in-link that is up.
    pub fn told_marks(&self, alloc: Global, control: &Control) -> Result<DownList, NoMemory>
        ensures { IfOk result (λ marks. (graph : Graph) (node : ℕ) (own : List ARecord) → Stands graph node own self.now
            → marks ≡ told_marks (ins_of graph node) (moments_of graph node own) control.now) }
    {
        match control {
            Control::Freeze { link } => self.mark_if_up(alloc, *link),
            _ => Ok(DownList::new(alloc)),
        }
    }

    /// The link with its frozen value, where it is an in-link that is up.
    fn mark_if_up(&self, alloc: Global, link: LinkId) -> Result<DownList, NoMemory>
        ensures { IfOk result (λ marks. (graph : Graph) (node : ℕ) (own : List ARecord) → Stands graph node own self.now
            → marks ≡ told_marks (ins_of graph node) (moments_of graph node own) (Control.Freeze link)) }
    {
        let mut marks = DownList::new(alloc);
        if self.is_up(link) {
            marks.push((link, self.registers().frozen(link)))?;
        }
        Ok(marks)
    }

    /// The links that a control message tells as dropped, past the number of those known.
    pub fn told_drops(&self, alloc: Global, control: &Control) -> Result<LinkList, NoMemory>
        ensures { IfOk result (λ drops. (graph : Graph) (node : ℕ) (own : List ARecord) → Stands graph node own self.now
            → drops ≡ told_drops (known_drops own) control.now) }
    {
        match control {
            Control::DropLinks { links } => {
                let news = self.ways.known.news(links.as_slice());
                Ok(List::from_vec(news.to_vec(alloc)?))
            }
            _ => Ok(List::new(alloc)),
        }
    }

    /// The ways of the node once it knows these links as dropped too. None where there are none, and the ways stay. For more
    /// than 65,535 known links there is no memory.
    pub fn ways_with(
        &self,
        alloc: Global,
        topology: &Topology,
        drops: &LinkList,
    ) -> Result<Option<Ways>, NoMemory>
        requires { self.now.node.0 < topology.now.nodes }
        ensures { IfOk result (λ ahead. (node : ℕ) (own : List ARecord) → Stands topology.now node own self.now
            → AreWays topology.now node (known_drops own ++ drops.now) (unwrap_or ahead self.now.ways)) }
    {
        if drops.is_empty() {
            return Ok(None);
        }
        let known = self.ways.known.with(drops.as_slice())?;
        Ok(Some(Ways::new(alloc, topology, self.node, known)?))
    }

    /// Sets the ways aside that will hold once the record that is worked out is followed. Takes no memory.
    pub fn prepare(&mut self, ahead: Option<Ways>)
        ensures { self.new ≡ record self.old { ahead = ahead } }
    {
        self.ahead = ahead;
    }

    /// The barriers after some links have gone down and then others were dropped, one after the other.
    pub fn barriers_after(&self, marks: &DownList, drops: &LinkList) -> Result<Barriers, NoMemory>
        ensures { IfOk result (λ barriers. (graph : Graph) (node : ℕ) (own : List ARecord)
            → Stands graph node own self.now
            → AreBarriers (ins_of graph node) (with_entries (ins_of graph node) drops.now (with_downed marks.now (moments_of graph node own))) barriers) }
    {
        self.ins.barriers_after(marks, drops)
    }

    /// The barriers after these links have gone down, one after the other.
    pub fn barriers_without(&self, marks: &DownList) -> Result<Barriers, NoMemory>
        ensures { IfOk result (λ barriers. (graph : Graph) (node : ℕ) (own : List ARecord)
            → Stands graph node own self.now
            → AreBarriers (ins_of graph node) (with_downed marks.now (moments_of graph node own)) barriers) }
    {
        self.ins.barriers_without(marks)
    }

    /// What the controller is told after these links have gone down: of each in-link that is down and not dropped, these
    /// too, its frozen value.
    pub fn downs_with(&self, alloc: Global, marks: &DownList) -> Result<AddressedList, NoMemory>
        ensures { IfOk result (λ told. (graph : Graph) (node : ℕ) (own : List ARecord) → Stands graph node own self.now
            → told ≡ downs (ins_of graph node) (with_downed marks.now (moments_of graph node own))) }
    {
        self.ins.downs_with(alloc, marks)
    }

    /// Puts a packet on its way, or counts it where it has none.
    pub fn put_on_way(&self, packet: Packet, step: &mut Step) -> Result<(), NoMemory>
        requires room { step.old.unrouted < 4294967295 }
        ensures ok { OnOk result ((graph : Graph) (node : ℕ) (own : List ARecord) → Stands graph node own self.now
            → step.new ≡ with_ways (route graph (known_drops own) node) (packet ∷ []) step.old) }
        ensures err { OnErr result (step.new ≡ step.old) }
    {
        step.put_on_way(&self.ways.routes, packet)
    }

    /// The step that puts a packet on its way alone, or counts it where it has none.
    pub fn send_on_way(&self, alloc: Global, packet: Packet) -> Result<KeptStep, NoMemory>
        ensures { IfOk result (λ step. (graph : Graph) (node : ℕ) (own : List ARecord) → Stands graph node own self.now
            → step ≡ with_ways (route graph (known_drops own) node) (packet ∷ []) (quiet_step Outcome.Ok)) }
    {
        KeptStep::on_way(alloc, &self.ways.routes, packet)
    }

    /// Puts a beacon with these barriers on each link out of the node that is not known as dropped.
    pub fn put_beacons(
        &self,
        alloc: Global,
        be: Ts,
        commit: Ts,
        step: &mut Step,
    ) -> Result<(), NoMemory>
        ensures ok { OnOk result (step.new ≡ with_beacons self.now.ways.outs (record { be = be.0; commit = commit.0 }) step.old) }
        ensures err { OnErr result (PutsAlone step.old step.new) }
    {
        step.put_beacons(alloc, self.ways.outs.as_slice(), be, commit)
    }

    /// The step that puts a beacon with these barriers on each link out of the node that is not known as dropped, and nothing
    /// else.
    pub fn send_beacons(&self, alloc: Global, be: Ts, commit: Ts) -> Result<KeptStep, NoMemory>
        ensures { IfOk result (λ step. step ≡ with_beacons self.now.ways.outs (record { be = be.0; commit = commit.0 }) (quiet_step Outcome.Ok)) }
    {
        KeptStep::beacons(alloc, self.ways.outs.as_slice(), be, commit)
    }

    /// Tells the controller how many links are known as dropped, where there are any.
    pub fn tell_gone(&self, told: &mut AddressedList) -> Result<(), NoMemory>
        ensures ok { OnOk result ((graph : Graph) (node : ℕ) (own : List ARecord) → Stands graph node own self.now
            → told.new ≡ told.old ++ gone_told node own) }
        ensures err { OnErr result (told.new ≡ told.old) }
    {
        let count = self.ways.known.count();
        if count == 0 {
            return Ok(());
        }
        told.push(Addressed {
            to: To::Controller,
            control: Control::Gone {
                node: self.node,
                count,
            },
        })
    }

    /// Takes over what a record of the node's own did to its links. Takes no memory.
    pub fn follow(&mut self, made: &Record)
        ensures { (graph : Graph) (node : ℕ) (own : List ARecord) → StandsWith graph node own made.now self.old
            → ComesIn graph node made.now.event
            → IsNodeStep graph node own made.now → Stands graph node (made.now ∷ own) self.new }
    {
        follow(&mut self.ins, made);
        if self.ahead.is_some() {
            self.change_ways();
        }
    }

    /// Takes the ways over that were set aside, which is seldom: they are large to move.
    fn change_ways(&mut self)
        ensures { self.new ≡ record self.old { ways = next_ways self.old; ahead = None } }
    {
        if let Some(ways) = self.ahead.take() {
            self.ways = ways;
        }
    }

    /// Gives back what was set aside for a step that was worked out and is refused. Takes no memory.
    pub fn undo(&mut self)
        ensures { self.new ≡ record self.old { ahead = None } }
    {
        self.ahead = None;
    }

    pub fn try_clone(&self) -> Result<Links, NoMemory>
        ensures { IfOk result (λ copy. copy ≡ self.now) }
    {
        Ok(Links {
            node: self.node,
            ins: self.ins.try_clone()?,
            ways: self.ways.clone()?,
            ahead: self.ahead.clone()?,
        })
    }
}

/// Takes over what a record did to the in-links.
fn follow(ins: &mut InLinks, made: &Record)
    ensures { (graph : Graph) (node : ℕ) (own : List ARecord) → InsStand graph node own ins.old
        → ComesIn graph node made.now.event
        → IsNodeStep graph node own made.now → InsStand graph node (made.now ∷ own) ins.new }
{
    match received(made) {
        Some(receipt) => ins.receive(receipt.link, receipt.be, receipt.commit),
        None => match tick_of(&made.event) {
            Some(now) => ins.tick(now, made.step.downed()),
            None => {
                ins.down(made.step.downed());
                ins.remove(made.step.dropped());
            }
        },
    }
}

/// What the record received: a packet that was taken from a link that is up. On any other link the packet is ignored.
fn received(made: &Record) -> Option<Receipt>
    ensures { (graph : Graph) (node : ℕ) (own : List ARecord) → IsNodeStep graph node own made.now
        → result ≡ option_map receipt_of (received graph node own made.now) }
{
    let Event::Take { link, .. } = &made.event else {
        return None;
    };
    let Took::Link { link: from, packet } = &made.took else {
        return None;
    };
    if from.0 != link.0 || is_ignored(made.step.outcome()) {
        return None;
    }
    Some(Receipt {
        link: *link,
        be: packet.be,
        commit: packet.commit,
    })
}

fn is_ignored(outcome: Outcome) -> bool
    ensures { result ≡ is_ignored outcome }
{
    matches!(outcome, Outcome::Ignored)
}

/// The reading of a tick.
fn tick_of(event: &Event) -> Option<Ts>
    ensures { result ≡ tick_of event.now }
{
    match event {
        Event::Tick { now, .. } => Some(*now),
        _ => None,
    }
}
