// Links without reports.
ghost use Rattle.std.specs.Prelude.{◌≡◌, ◌<◌, length, IfOk};
ghost use Rattle.pipe_topo.specs.Reports.{report_of};
ghost use Rattle.pipe_topo.specs.Sets.{has};
ghost use Rattle.pipe_graph.specs.Reported.{is_reported, unreported};

use pipe_base::{LinkId, NoMemory};
use pipe_topo::{LinkSet, Reports, Topology};
use std::alloc::Global;

/// The live links without reports.
#[tactic(auto, using(crate::proofs::FilledLaws::filled_none, crate::proofs::FilledLaws::filled_in, crate::proofs::FilledLaws::filled_out))]
pub fn unreported(
    alloc: Global,
    topology: &Topology,
    live: &LinkSet,
    reports: &Reports,
) -> Result<LinkSet, NoMemory>
    requires live { length live.now ≡ length topology.now.links }
    requires reports { length reports.now ≡ length topology.now.links }
    ensures size { IfOk result (λ set. length set ≡ length topology.now.links) }
    ensures value { IfOk result (λ set. has set ≡ unreported (has live.now) (report_of reports.now)) }
{
    let mut set = LinkSet::none(alloc, topology.links())?;
    for link in 0..topology.links() {
        if is_unreported(live, reports, LinkId(link)) {
            set.insert(LinkId(link));
        }
    }
    Ok(set)
}

fn is_unreported(live: &LinkSet, reports: &Reports, link: LinkId) -> bool
    requires live { link.0 < length live.now }
    requires reports { link.0 < length reports.now }
    ensures { result ≡ unreported (has live.now) (report_of reports.now) link.0 }
{
    live.has(link) && reports.value(link).is_none()
}
