// The ways out of a node.
ghost use Rattle.std.specs.Prelude.{◌≡◌, ◌<◌, length, filter, All, IfOk};
ghost use Rattle.pipe_topo.specs.Sets.{lacks};
ghost use Rattle.pipe_links.specs.Ways.{AreWays, IsSetOf};

use pipe_base::{LinkId, LinkList, List, NoMemory, NodeId, Told};
use pipe_route::Routes;
use pipe_topo::{LinkSet, Topology};
use std::alloc::Global;

/// Which links a node knows as dropped, and by that on which links it puts packets.
#[derive(Clone, Drop)]
pub struct Ways {
    pub(crate) known: Told<LinkId>,
    /// The links out of the node that are not known as dropped.
    pub(crate) outs: LinkList,
    pub(crate) routes: Routes,
}

impl Ways {
    /// The ways of a node that knows these links as dropped.
    pub fn new(
        alloc: Global,
        topology: &Topology,
        node: NodeId,
        known: Told<LinkId>,
    ) -> Result<Ways, NoMemory>
        requires { node.0 < topology.now.nodes }
        ensures { IfOk result (AreWays topology.now node.0 known) }
    {
        let dropped = set_of(alloc, topology, known.as_slice())?;
        Ok(Ways {
            outs: kept_among(alloc, topology.outs(node), &dropped)?,
            routes: Routes::build(alloc, topology, node, &dropped)?,
            known,
        })
    }
}

/// The links of the network among these entries, as a set.
fn set_of(alloc: Global, topology: &Topology, entries: &[LinkId]) -> Result<LinkSet, NoMemory>
    ensures { IfOk result (IsSetOf (length topology.now.links) entries.now) }
{
    let mut set = LinkSet::none(alloc, topology.links())?;
    'entries: for link in entries {
        if link.0 < topology.links() {
            set.insert(*link);
        }
    }
    Ok(set)
}

/// The links that are not dropped.
fn kept_among(alloc: Global, links: &[LinkId], dropped: &LinkSet) -> Result<LinkList, NoMemory>
    requires { All (λ l. l.0 < length dropped.now) links.now }
    ensures { IfOk result (λ kept. kept ≡ filter (λ l. lacks dropped.now l.0) links.now) }
{
    let mut kept = List::new(alloc);
    'links: for link in links {
        if !dropped.has(*link) {
            kept.push(*link)?;
        }
    }
    Ok(kept)
}
