//! Repeats one whole decision of who must go in the largest network, for `bench/failtime` to time: so many times, with so
//! many reported links. It prints a sum over what came out.
#![tactic(auto)]

mod decision;
mod network;

use crate::decision::{decided, reports_of};
use crate::network::largest;
use anyhow::{Result, bail, ensure};
use pipe_topo::{LinkSet, Topology};
use std::env;

fn main(rt: HostRuntime) -> Result<()> {
    let mut words = env::args(&rt)?.skip(1);
    let (Some(count), Some(reported)) = (words.next(), words.next()) else {
        bail!("usage: COUNT REPORTS");
    };
    let count = count.as_str().parse::<u32>()?;
    let reported = reported.as_str().parse::<u16>()?;
    let Ok(plan) = largest(rt.alloc()) else {
        bail!("no memory");
    };
    ensure!(
        plan.has_ends() && plan.levels.len() < 1000 && plan.cables.len() < 1000,
        "the plan has its ends"
    );
    let Ok(topology) = Topology::build(rt.alloc(), &plan) else {
        bail!("no memory");
    };
    let links = topology.links();
    let (Ok(live), Ok(reports)) = (
        LinkSet::all(rt.alloc(), links),
        reports_of(rt.alloc(), links, reported),
    ) else {
        bail!("no memory");
    };
    let mut sum = 0u64;
    'rounds: for _ in 0..count {
        let Ok(decided) = decided(rt.alloc(), &topology, &live, &reports) else {
            bail!("no memory");
        };
        sum = sum.wrapping_add(decided);
    }
    println!(rt; "{sum}")?;
    Ok(())
}
