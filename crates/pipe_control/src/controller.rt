// What the controller knows, and its decisions.
ghost use Rattle.std.specs.Prelude.{◌≡◌, IfOk, OnErr, OnOk};
ghost use Rattle.pipe_graph.specs.Graph.{Graph};
ghost use Rattle.pipe_control.specs.Known.{Fits, IsChange, IsDecision, IsSized, Stands};
ghost use Rattle.pipe_model.specs.Controller.{decision};
ghost use Rattle.pipe_model.specs.Decision.{after_decision};
ghost use Rattle.pipe_model.specs.View.{View, after_message, first_view};

use crate::counts::Counts;
use crate::heard::{note_done, note_gone, note_report};
use pipe_base::{
    AddressedList, Announced, AnnouncedList, Control, KeptStep, LinkId, LinkList, NoMemory,
    SharedList, Step,
};
use pipe_topo::{HostSet, LinkSet, Reports, Topology};
use std::alloc::Global;

/// Who takes part, which links count, what was reported of them, who must go, who was announced, which links were
/// dropped, and how much of the announced and of the dropped each node said that it knows. Contracts speak of any view
/// for which it stands.
#[derive(Drop)]
pub struct Controller {
    pub(crate) alloc: Global,
    links: u16,
    pub(crate) members: HostSet,
    pub(crate) live: LinkSet,
    pub(crate) reports: Reports,
    pub(crate) doomed: HostSet,
    pub(crate) announced: SharedList<Announced>,
    pub(crate) dropped: SharedList<LinkId>,
    pub(crate) done: Counts,
    pub(crate) gone: Counts,
}

/// What the controller decided: hosts that it announces, links that it drops, and messages that it puts.
#[derive(Debug, Drop)]
pub struct Decision {
    pub announced: AnnouncedList,
    pub dropped: LinkList,
    pub put: AddressedList,
}

/// What a decision changes: the controller as it will be.
#[derive(Drop)]
pub struct Change {
    next: Controller,
}

impl Controller {
    /// All hosts take part, all links are live, nothing was reported, and nothing was said.
    pub fn new(alloc: Global, topology: &Topology) -> Result<Controller, NoMemory>
        ensures { IfOk result (Stands topology.now (first_view topology.now)) }
    {
        let links = topology.links();
        Ok(Controller {
            alloc,
            links,
            members: HostSet::first(topology.hosts()),
            live: LinkSet::all(alloc, links)?,
            reports: Reports::none(alloc, links)?,
            doomed: HostSet::none(),
            announced: SharedList::empty(alloc),
            dropped: SharedList::empty(alloc),
            done: Counts::none(alloc, 64)?,
            gone: Counts::none(alloc, topology.nodes())?,
        })
    }

    /// Takes a message to the controller. The first report of a live link counts; of the counts of a member that noted
    /// announced hosts, and of a node that knows dropped links, the greatest counts. What can't be is ignored: a count
    /// greater than the list, a sender that is none, and a message to a node. Takes no memory.
    pub fn take(&mut self, control: &Control)
        requires { IsSized self.old }
        ensures { (graph : Graph) (v : View) → Stands graph v self.old
            → Stands graph (after_message graph control.now v) self.new }
    {
        match control {
            Control::Down { link, value } => {
                note_report(self.links, &self.live, &mut self.reports, *link, *value);
            }
            Control::Done { host, count } => {
                note_done(
                    &self.members,
                    self.announced.len(),
                    &mut self.done,
                    *host,
                    *count,
                );
            }
            Control::Gone { node, count } => {
                note_gone(self.dropped.len(), &mut self.gone, *node, *count);
            }
            _ => {}
        }
    }

    /// Works out a decision and what it changes. Nothing changes.
    pub fn work_decision(&self, topology: &Topology) -> Result<(Decision, Change), NoMemory>
        requires { Fits topology.now self.now }
        ensures decision { IfOk result (λ done. (v : View) → Stands topology.now v self.now
            → IsDecision topology.now v done.0) }
        ensures change { IfOk result (λ done. (v : View) → Stands topology.now v self.now
            → IsChange topology.now v done.1) }
    {
        let mut next = self.try_clone()?;
        next.doom(topology)?;
        let announced = next.announce(topology)?;
        let dropped = next.drop_dead(topology)?;
        let put = next.messages(topology)?;
        let decision = Decision {
            announced,
            dropped,
            put,
        };
        Ok((decision, Change { next }))
    }

    /// Works out a decision as a step, and what it changes. Nothing changes.
    pub fn work_step(&self, topology: &Topology) -> Result<(KeptStep, Change), NoMemory>
        requires { Fits topology.now self.now }
        ensures step { IfOk result (λ done. (v : View) → Stands topology.now v self.now
            → done.0 ≡ decision topology.now v) }
        ensures change { IfOk result (λ done. (v : View) → Stands topology.now v self.now
            → IsChange topology.now v done.1) }
    {
        let (decision, change) = self.work_decision(topology)?;
        let mut step = Step::new(self.alloc);
        step.noted = decision.announced;
        step.dropped = decision.dropped;
        step.control = decision.put;
        let kept = step.keep(self.alloc)?;
        Ok((kept, change))
    }

    /// Puts a decision's change in place. Takes no memory.
    pub fn follow(&mut self, change: Change)
        ensures { (graph : Graph) (v : View) → Stands graph v self.old → IsChange graph v change
            → Stands graph (after_decision graph v) self.new }
    {
        *self = change.next;
    }

    /// Decides. Nothing changes where there is no memory.
    pub fn decide(&mut self, topology: &Topology) -> Result<Decision, NoMemory>
        requires { Fits topology.now self.old }
        ensures decision { IfOk result (λ done. (v : View) → Stands topology.now v self.old
            → IsDecision topology.now v done) }
        ensures ok { OnOk result ((v : View) → Stands topology.now v self.old
            → Stands topology.now (after_decision topology.now v) self.new) }
        ensures err { OnErr result (self.new ≡ self.old) }
    {
        let (decision, change) = self.work_decision(topology)?;
        self.follow(change);
        Ok(decision)
    }

    /// The announced hosts, in the order of their announcement.
    pub fn announced(&self) -> &[Announced]
        ensures { (graph : Graph) (v : View) → Stands graph v self.now → result.now ≡ v.announced }
    {
        self.announced.as_slice()
    }

    /// The dropped links, in the order in which they were dropped.
    pub fn dropped(&self) -> &[LinkId]
        ensures { (graph : Graph) (v : View) → Stands graph v self.now → result.now ≡ v.dropped }
    {
        self.dropped.as_slice()
    }

    pub fn try_clone(&self) -> Result<Controller, NoMemory>
        ensures { IfOk result (λ copy. copy ≡ self.now) }
    {
        Ok(Controller {
            alloc: self.alloc,
            links: self.links,
            members: self.members,
            live: self.live.try_clone()?,
            reports: self.reports.try_clone()?,
            doomed: self.doomed,
            announced: self.announced.try_clone()?,
            dropped: self.dropped.try_clone()?,
            done: self.done.try_clone()?,
            gone: self.gone.try_clone()?,
        })
    }
}
