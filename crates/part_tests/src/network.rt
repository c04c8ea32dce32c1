// Networks that tests are about, by numbers. The helpers promise nothing, so that a test has few facts to carry.

use pipe_base::{List, NoMemory, Ts};
use pipe_topo::{CableEnd, Plan, TopoFault, Topology};
use std::alloc::Global;
use std::process::Abort;

/// A cable between two ends: a host by its number, a switch by a hundred more.
pub type Ends = (u16, u16);

/// Hosts, the level of each switch, cables and the patience.
#[derive(Clone, Copy)]
pub struct Network {
    pub hosts: u16,
    pub levels: &'static [u8],
    pub cables: &'static [Ends],
    pub patience: u64,
}

/// A host at one switch.
pub const ONE_HOST: Network = Network {
    hosts: 1,
    levels: &[1],
    cables: &[(0, 100)],
    patience: 1000,
};

/// Two hosts at one switch.
pub const TWO_HOSTS: Network = Network {
    hosts: 2,
    levels: &[1],
    cables: &[(0, 100), (1, 100)],
    patience: 100,
};

/// Two hosts under two switches, which two higher switches join.
pub const TWO_WAYS: Network = Network {
    hosts: 2,
    levels: &[1, 1, 2, 2],
    cables: &[
        (0, 100),
        (1, 101),
        (100, 102),
        (100, 103),
        (101, 102),
        (101, 103),
    ],
    patience: 100,
};

fn end_of(number: u16) -> CableEnd {
    if number < 100 {
        CableEnd::Host(number)
    } else {
        CableEnd::Switch(number - 100)
    }
}

fn plan_of(alloc: Global, network: &Network) -> Result<Plan, NoMemory> {
    let levels = List::from_vec(Vec::from_slice(alloc, network.levels)?);
    let mut cables = List::new(alloc);
    for (one, other) in network.cables {
        cables.push((end_of(*one), end_of(*other)))?;
    }
    Ok(Plan {
        hosts: network.hosts,
        levels,
        cables,
        patience: Ts(network.patience),
    })
}

pub fn build(rt: &impl Abort, alloc: Global, network: &Network) -> Result<Topology, TopoFault> {
    let plan = plan_of(alloc, network)?.try_clone()?;
    assert!(rt; plan.has_ends() && plan.levels.len() < 1000 && plan.cables.len() < 1000);
    Topology::build(alloc, &plan)
}
