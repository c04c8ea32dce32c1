// Which node reaches which, and which hosts feed a link.
ghost use Rattle.std.specs.Prelude.{◌≡◌, ◌<◌, length, IfOk};
ghost use Rattle.std.specs.List.{list_any};
ghost use Rattle.pipe_graph.specs.Graph.{outs_of};
ghost use Rattle.pipe_graph.specs.Reach.{feeds, reaches};
ghost use Rattle.pipe_topo.specs.Sets.{has};
ghost use Rattle.pipe_topo.specs.Walk.{leads_near};

use crate::walk::{entry, walk_back};
use crate::wiring::Wiring;
use crate::{FAR, LinkSet, Topology};
use pipe_base::{HostId, LinkId, NoMemory, NodeId};
use std::alloc::Global;

impl Wiring {
    pub fn reaches(
        &self,
        alloc: Global,
        from: NodeId,
        to: NodeId,
        by: &LinkSet,
    ) -> Result<bool, NoMemory>
        requires from { from.0 < self.now.nodes }
        requires to { to.0 < self.now.nodes }
        requires links { length by.now ≡ length self.now.links }
        ensures { IfOk result (λ yes. yes ≡ reaches self.now (has by.now) from.0 to.0) }
    {
        let away = walk_back(alloc, self, to, by)?;
        Ok(goes_on(self, by, from, &away))
    }
}

impl Topology {
    /// A path of links of the set leads from one node to the other.
    pub fn reaches(
        &self,
        alloc: Global,
        from: NodeId,
        to: NodeId,
        by: &LinkSet,
    ) -> Result<bool, NoMemory>
        requires from { from.0 < self.now.nodes }
        requires to { to.0 < self.now.nodes }
        requires links { length by.now ≡ length self.now.links }
        ensures { IfOk result (λ yes. yes ≡ reaches self.now (has by.now) from.0 to.0) }
    {
        self.wiring.reaches(alloc, from, to, by)
    }

    /// The host is the link's tail, or reaches the tail by the set, and that is a half.
    pub fn feeds(
        &self,
        alloc: Global,
        host: HostId,
        link: LinkId,
        by: &LinkSet,
    ) -> Result<bool, NoMemory>
        requires host { host.0 < self.now.hosts }
        requires link { link.0 < length self.now.links }
        requires links { length by.now ≡ length self.now.links }
        ensures { IfOk result (λ yes. yes ≡ feeds self.now (has by.now) host.0 link.0) }
    {
        let host = NodeId(host.0);
        let tail = self.tail(link);
        if host == tail {
            return Ok(true);
        }
        if !self.is_half(tail) {
            return Ok(false);
        }
        self.reaches(alloc, host, tail, by)
    }
}

// A link of the set leads from the node to one that is not far.
fn goes_on(wiring: &Wiring, by: &LinkSet, from: NodeId, away: &[u16]) -> bool
    requires from { from.0 < wiring.now.nodes }
    requires links { length by.now ≡ length wiring.now.links }
    requires size { length away.now ≡ wiring.now.nodes }
    ensures { result ≡ list_any (λ l. leads_near wiring.now (has by.now) away.now l.0) (outs_of wiring.now from.0) }
{
    wiring
        .outs(from)
        .iter()
        .any(|link| leads_near(wiring, by, *link, away))
}

fn leads_near(wiring: &Wiring, by: &LinkSet, link: LinkId, away: &[u16]) -> bool
    requires link { link.0 < length wiring.now.links }
    requires links { length by.now ≡ length wiring.now.links }
    requires size { length away.now ≡ wiring.now.nodes }
    ensures { result ≡ leads_near wiring.now (has by.now) away.now link.0 }
{
    by.has(link) && entry(away, wiring.head(link)) < FAR
}
