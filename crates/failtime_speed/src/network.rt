// The largest network.
ghost use Rattle.std.specs.Prelude.{◌<◌};

use pipe_base::{List, NoMemory, Ts};
use pipe_topo::{CableEnd, CableList, Plan};
use std::alloc::Global;

/// 64 hosts, 32 leaf switches and 32 spines, 512 cables. Thirteen spines are joined to all leaves, the others to few.
pub fn largest(alloc: Global) -> Result<Plan, NoMemory> {
    let mut levels = List::new(alloc);
    for switch in 0..64u8 {
        levels.push(1 + switch / 32)?;
    }
    let mut cables = List::new(alloc);
    for host in 0..64u16 {
        cables.push((CableEnd::Host(host), CableEnd::Switch(host / 2)))?;
    }
    for leaf in 0..32u16 {
        join_leaf(&mut cables, leaf)?;
    }
    Ok(Plan {
        hosts: 64,
        levels,
        cables,
        patience: Ts(100),
    })
}

fn join_leaf(cables: &mut CableList, leaf: u16) -> Result<(), NoMemory>
    requires { leaf < 32 }
{
    for spine in 32..45u16 {
        cables.push((CableEnd::Switch(leaf), CableEnd::Switch(spine)))?;
    }
    cables.push((CableEnd::Switch(leaf), CableEnd::Switch(45 + leaf % 19)))
}
