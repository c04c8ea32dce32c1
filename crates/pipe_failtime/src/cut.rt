// Hosts that are cut off.
ghost use Rattle.std.specs.Prelude.{◌≡◌, ℕ, ◌<◌, ◌&&◌, length, IfOk};
ghost use Rattle.pipe_graph.specs.Below.{any_below};
ghost use Rattle.pipe_graph.specs.Reach.{reaches};
ghost use Rattle.pipe_topo.specs.Reports.{report_of};
ghost use Rattle.pipe_topo.specs.Sets.{has};
ghost use Rattle.pipe_graph.specs.Cut.{is_cut};
ghost use Rattle.pipe_graph.specs.Reported.{unreported};

use crate::reported::unreported;
use pipe_base::{HostId, NoMemory, NodeId};
use pipe_topo::{HostSet, LinkSet, Reports, Topology};
use std::alloc::Global;

/// The host reaches no kept host by the live links without reports.
pub fn is_cut(
    alloc: Global,
    topology: &Topology,
    host: HostId,
    live: &LinkSet,
    reports: &Reports,
    kept: &HostSet,
) -> Result<bool, NoMemory>
    requires host { host.0 < topology.now.hosts }
    requires live { length live.now ≡ length topology.now.links }
    requires reports { length reports.now ≡ length topology.now.links }
    ensures { IfOk result (λ yes. yes ≡ is_cut topology.now (unreported (has live.now) (report_of reports.now)) (has kept.now) host.0) }
{
    let by = unreported(alloc, topology, live, reports)?;
    let reached = reaches_some(alloc, topology, host, &by, kept)?;
    Ok(!reached)
}

#[tactic(auto, using(crate::proofs::TestLaws::none_more))]
fn reaches_some(
    alloc: Global,
    topology: &Topology,
    host: HostId,
    by: &LinkSet,
    kept: &HostSet,
) -> Result<bool, NoMemory>
    requires host { host.0 < topology.now.hosts }
    requires links { length by.now ≡ length topology.now.links }
    ensures { IfOk result (λ yes. yes ≡ any_below (λ end. has kept.now end && reaches topology.now (has by.now) host.0 end) topology.now.hosts) }
{
    for end in 0..topology.hosts() {
        if kept.has(HostId(end)) && topology.reaches(alloc, NodeId(host.0), NodeId(end), by)? {
            return Ok(true);
        }
    }
    Ok(false)
}
