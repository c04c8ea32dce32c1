// Which links are dropped, and when.
ghost use Rattle.std.specs.Prelude.{◌≡◌, ◌<◌, ◌&&◌, filter, length, not, IfOk, OnOk};
ghost use Rattle.pipe_graph.specs.Graph.{all_links};
ghost use Rattle.pipe_graph.specs.Useless.{is_useless};
ghost use Rattle.pipe_control.specs.Known.{Fits, Stands, view_of};
ghost use Rattle.pipe_model.specs.Decision.{after_drop, all_over, is_dead, is_over, newly_dead};
ghost use Rattle.pipe_model.specs.View.{intact, is_kept};
ghost use Rattle.pipe_topo.specs.Sets.{has};

use crate::Controller;
use crate::due::{is_due, is_kept, kept};
use crate::lists::more_links;
use pipe_base::{LinkId, LinkList, List, NoMemory, NodeId};
use pipe_failtime::useless;
use pipe_topo::{LinkSet, Reports, Topology};

impl Controller {
    // Drops the dead links and lets the doomed hosts leave, as soon as no host is a reason to wait. Answers the links.
    pub(crate) fn drop_dead(&mut self, topology: &Topology) -> Result<LinkList, NoMemory>
        requires { Fits topology.now self.old }
        ensures dead { IfOk result (λ dead. dead ≡ newly_dead topology.now (view_of self.old)) }
        ensures known { OnOk result (Stands topology.now (after_drop topology.now (view_of self.old)) self.new) }
    {
        if !self.all_over(topology) {
            return Ok(List::new(self.alloc));
        }
        let kept = kept(&self.members, &self.doomed);
        let useless = useless(self.alloc, topology, &self.live, &self.reports, &kept)?;
        let dead = self.dead_links(topology, &useless)?;
        let dropped = more_links(self.alloc, &self.dropped, &dead)?;
        let live = self.links_left(topology, &useless)?;
        let reports = Reports::none(self.alloc, topology.links())?;
        self.members = kept;
        self.live = live;
        self.reports = reports;
        self.dropped = dropped;
        Ok(dead)
    }

    // No host is a reason to wait.
    fn all_over(&self, topology: &Topology) -> bool
        ensures { result ≡ all_over topology.now (view_of self.now) }
    {
        for host in 0..topology.hosts() {
            if !self.is_over(NodeId(host)) {
                return false;
            }
        }
        true
    }

    // The host is announced where it is doomed, and has noted all that were announced where it is kept.
    fn is_over(&self, host: NodeId) -> bool
        ensures { result ≡ is_over (view_of self.now) host.0 }
    {
        !is_due(&self.doomed, &self.announced, host)
            && (!is_kept(&self.members, &self.doomed, host)
                || usize::from(self.done.of(host.0)) == self.announced.len())
    }

    // The dead links, in rising number.
    fn dead_links(&self, topology: &Topology, useless: &LinkSet) -> Result<LinkList, NoMemory>
        requires fits { Fits topology.now self.now }
        requires size { length useless.now ≡ length topology.now.links }
        requires value { has useless.now ≡ is_useless topology.now (intact (view_of self.now)) (is_kept (view_of self.now)) }
        ensures { IfOk result (λ dead. dead ≡ filter (λ l. is_dead topology.now (view_of self.now) l.0) (all_links topology.now)) }
    {
        let mut dead = List::new(self.alloc);
        for link in 0..topology.links() {
            if self.is_dead(topology, useless, LinkId(link)) {
                dead.push(LinkId(link))?;
            }
        }
        Ok(dead)
    }

    // The live links that are not dead.
    #[tactic(auto, using(crate::proofs::KeptLaws::kept_none))]
    fn links_left(&self, topology: &Topology, useless: &LinkSet) -> Result<LinkSet, NoMemory>
        requires fits { Fits topology.now self.now }
        requires size { length useless.now ≡ length topology.now.links }
        requires value { has useless.now ≡ is_useless topology.now (intact (view_of self.now)) (is_kept (view_of self.now)) }
        ensures size { IfOk result (λ set. length set ≡ length topology.now.links) }
        ensures value { IfOk result (λ set. has set ≡ (λ l. has self.now.live l && not (is_dead topology.now (view_of self.now) l))) }
    {
        let mut left = LinkSet::none(self.alloc, topology.links())?;
        for link in 0..topology.links() {
            if self.stays(topology, useless, LinkId(link)) {
                left.insert(LinkId(link));
            }
        }
        Ok(left)
    }

    // A live link that is not dead.
    fn stays(&self, topology: &Topology, useless: &LinkSet, link: LinkId) -> bool
        requires fits { Fits topology.now self.now }
        requires link { link.0 < length topology.now.links }
        requires size { length useless.now ≡ length topology.now.links }
        requires value { has useless.now ≡ is_useless topology.now (intact (view_of self.now)) (is_kept (view_of self.now)) }
        ensures { result ≡ (has self.now.live link.0 && not (is_dead topology.now (view_of self.now) link.0)) }
    {
        self.live.has(link) && !self.is_dead(topology, useless, link)
    }

    // A live link that was reported, or that no kept host feeds any more.
    fn is_dead(&self, topology: &Topology, useless: &LinkSet, link: LinkId) -> bool
        requires fits { Fits topology.now self.now }
        requires link { link.0 < length topology.now.links }
        requires size { length useless.now ≡ length topology.now.links }
        requires value { has useless.now ≡ is_useless topology.now (intact (view_of self.now)) (is_kept (view_of self.now)) }
        ensures { result ≡ is_dead topology.now (view_of self.now) link.0 }
    {
        self.live.has(link) && (self.reports.value(link).is_some() || useless.has(link))
    }
}
