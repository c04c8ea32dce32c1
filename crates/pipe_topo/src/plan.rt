// A plan of a network: hosts, switches with levels, and the cables between them.
ghost use Rattle.std.specs.Prelude.{◌↔◌, IsTrue};
ghost use Rattle.pipe_topo.specs.Plan.{IsEnd};

use pipe_base::{List, NoMemory, Ts};
use std::alloc::Global;

/// One end of a cable.
#[derive(Clone, Copy, Debug, PartialEq, Eq)]
pub enum CableEnd {
    Host(u16),
    Switch(u16),
}

/// A cable joins a host and a switch, or two switches of different levels.
pub type Cable = (CableEnd, CableEnd);

/// The level of each switch, from 1 to 15.
pub type LevelList = List<u8>;

/// The cables, in planned order.
pub type CableList = List<Cable>;

/// What a network is built from.
#[derive(Clone, Drop)]
pub struct Plan {
    pub hosts: u16,
    pub levels: LevelList,
    pub cables: CableList,
    /// How long a link may be silent before it counts as down.
    pub patience: Ts,
}

impl Plan {
    ghost use Rattle.std.specs.Prelude.{◌≡◌, ◌↔◌, length, IfOk, IsTrue};
    ghost use Rattle.pipe_topo.specs.Plan.{HasEnds};
    ghost use Rattle.pipe_topo.specs.Star.{star_plan};

    /// So many hosts at one switch of level 1, with a cable per host in order.
    pub fn star(alloc: Global, hosts: u16, patience: Ts) -> Result<Plan, NoMemory>
        ensures { IfOk result (λ plan. plan ≡ star_plan hosts patience) }
    {
        let mut levels = List::new(alloc);
        levels.push(1)?;
        let mut cables = List::new(alloc);
        for host in 0..hosts {
            cables.push((CableEnd::Host(host), CableEnd::Switch(0)))?;
        }
        Ok(Plan {
            hosts,
            levels,
            cables,
            patience,
        })
    }

    /// Each cable joins what the plan has. A topology is built of such plans alone.
    pub fn has_ends(&self) -> bool
        ensures { IsTrue result ↔ HasEnds self.now.hosts (length self.now.levels) self.now.cables }
    {
        let switches = self.levels.len();
        let cables = self.cables.as_slice();
        cables.iter().all(|c| has_end(self.hosts, switches, c.0)
            && has_end(self.hosts, switches, c.1))
    }

    pub fn try_clone(&self) -> Result<Plan, NoMemory>
        ensures { IfOk result (λ copy. copy ≡ self.now) }
    {
        Ok(self.clone()?)
    }
}

fn has_end(hosts: u16, switches: usize, end: CableEnd) -> bool
    ensures { IsTrue result ↔ IsEnd hosts switches end }
{
    match end {
        CableEnd::Host(host) => host < hosts,
        CableEnd::Switch(switch) => usize::from(switch) < switches,
    }
}
