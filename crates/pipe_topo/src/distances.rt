// How far each node is from one node.
ghost use Rattle.std.specs.Prelude.{◌≡◌, ◌<◌, ◌≤◌, length, IfOk};
ghost use Rattle.pipe_graph.specs.Graph.{IsGraph};
ghost use Rattle.pipe_topo.specs.Sets.{has};
ghost use Rattle.pipe_topo.specs.Walk.{IsDistances, away_of};
ghost use Rattle.pipe_base.specs.Limits.{most_nodes};

use crate::walk::{entry, walk_back};
use crate::{LinkSet, Topology};
use pipe_base::{NoMemory, NodeId};
use std::alloc::Global;
use std::marker::Model;

/// The distance of a node from which no links lead on.
pub const FAR: u16 = u16::MAX;

/// For each node how many links of a set lead on from it to one node, at least. Each of these links begins at a half.
#[derive(Drop)]
pub struct Distances {
    away: Vec<u16>,
}

impl Model for Distances {
    ghost use Rattle.std.specs.Prelude.{List, ℕ};

    ghost Value = { List ℕ };

    ghost view = { λ d. d.away.items };
}

impl Distances {
    pub fn to(
        alloc: Global,
        topology: &Topology,
        to: NodeId,
        by: &LinkSet,
    ) -> Result<Distances, NoMemory>
        requires node { to.0 < topology.now.nodes }
        requires links { length by.now ≡ length topology.now.links }
        ensures right { IfOk result (λ away. IsDistances topology.now (has by.now) to.0 away) }
        ensures graph { IsGraph topology.now }
        ensures few { topology.now.nodes ≤ most_nodes }
    {
        Ok(Distances {
            away: walk_back(alloc, &topology.wiring, to, by)?,
        })
    }

    /// The distance of the node, or `FAR`.
    pub fn of(&self, node: NodeId) -> u16
        requires { node.0 < length self.now }
        ensures { result ≡ away_of self.now node.0 }
    {
        entry(&self.away, node)
    }
}
