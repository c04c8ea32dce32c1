// From which time on the messages of a host are void.
ghost use Rattle.std.specs.Prelude.{◌≡◌, ℕ, ◌<◌, length, IfOk};
ghost use Rattle.pipe_topo.specs.Reports.{report_of};
ghost use Rattle.pipe_topo.specs.Sets.{has};
ghost use Rattle.pipe_graph.specs.FailureTime.{failure_time, fed_report, later};

use pipe_base::{HostId, LinkId, NoMemory, Ts};
use pipe_topo::{LinkSet, Reports, Topology};
use std::alloc::Global;

/// The greatest value that was reported of a live link that the host feeds by live links. None exactly where it feeds no
/// such link.
pub fn failure_time(
    alloc: Global,
    topology: &Topology,
    host: HostId,
    live: &LinkSet,
    reports: &Reports,
) -> Result<Option<Ts>, NoMemory>
    requires host { host.0 < topology.now.hosts }
    requires live { length live.now ≡ length topology.now.links }
    requires reports { length reports.now ≡ length topology.now.links }
    ensures { IfOk result (λ time. time ≡ failure_time topology.now (has live.now) (report_of reports.now) host.0) }
{
    let mut time = None;
    for link in 0..topology.links() {
        let report = fed_report(alloc, topology, host, live, reports, LinkId(link))?;
        time = later(time, report);
    }
    Ok(time)
}

// The report of the link, where it is live and the host feeds it.
fn fed_report(
    alloc: Global,
    topology: &Topology,
    host: HostId,
    live: &LinkSet,
    reports: &Reports,
    link: LinkId,
) -> Result<Option<Ts>, NoMemory>
    requires host { host.0 < topology.now.hosts }
    requires live { length live.now ≡ length topology.now.links }
    requires reports { length reports.now ≡ length topology.now.links }
    requires link { link.0 < length topology.now.links }
    ensures { IfOk result (λ report. report ≡ fed_report topology.now (has live.now) (report_of reports.now) host.0 link.0) }
{
    let report = reports.value(link);
    if report.is_some() && live.has(link) && topology.feeds(alloc, host, link, live)? {
        Ok(report)
    } else {
        Ok(None)
    }
}

fn later(a: Option<Ts>, b: Option<Ts>) -> Option<Ts>
    ensures { result ≡ later a b }
{
    match (a, b) {
        (None, b) => b,
        (a, None) => a,
        (Some(a), Some(b)) => Some(Ts(a.0.max(b.0))),
    }
}
