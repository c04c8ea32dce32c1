// The hosts that must go.
ghost use Rattle.std.specs.Prelude.{◌≡◌, length, IfOk};
ghost use Rattle.pipe_topo.specs.Reports.{report_of};
ghost use Rattle.pipe_topo.specs.Sets.{has};
ghost use Rattle.pipe_graph.specs.Doomed.{doomed, is_left};
ghost use Rattle.pipe_graph.specs.Reported.{unreported};

use crate::first::next_to_go;
use crate::reach::Reach;
use crate::reported::unreported;
use pipe_base::{HostId, NoMemory};
use pipe_topo::{HostSet, LinkSet, Reports, Topology};
use std::alloc::Global;

/// The hosts that were doomed before, and those members that must go until any two that are left reach each other by the
/// live links without reports: in each round the one of the fewest partners, of the fewest reached, of the greatest number.
pub fn doomed(
    alloc: Global,
    topology: &Topology,
    members: &HostSet,
    live: &LinkSet,
    reports: &Reports,
    before: &HostSet,
) -> Result<HostSet, NoMemory>
    requires live { length live.now ≡ length topology.now.links }
    requires reports { length reports.now ≡ length topology.now.links }
    ensures { IfOk result (λ set. has set ≡ doomed topology.now (unreported (has live.now) (report_of reports.now)) (has members.now) (has before.now)) }
{
    let by = unreported(alloc, topology, live, reports)?;
    let reach = Reach::new(alloc, topology, &by)?;
    Ok(after_rounds(&reach, members, before.copy()))
}

fn after_rounds(reach: &Reach<'_>, members: &HostSet, before: HostSet) -> HostSet
    requires { length before ≡ 64 }
    ensures { has result ≡ doomed reach.now.graph (has reach.now.by) (has members.now) (has before) }
{
    let mut doomed = before;
    for _ in 0..reach.hosts() {
        let left = left(reach, members, &doomed);
        match next_to_go(reach, &left) {
            Some(host) => doomed.insert(HostId(host)),
            None => return doomed,
        }
    }
    doomed
}

// The members that are not doomed.
#[tactic(auto, using(crate::proofs::FilledLaws::filled_in, crate::proofs::FilledLaws::filled_out))]
fn left(reach: &Reach<'_>, members: &HostSet, doomed: &HostSet) -> HostSet
    ensures { has result ≡ is_left reach.now.graph (has members.now) (has doomed.now) }
{
    let mut left = HostSet::none();
    for host in 0..reach.hosts() {
        if members.has(HostId(host)) && !doomed.has(HostId(host)) {
            left.insert(HostId(host));
        }
    }
    left
}
