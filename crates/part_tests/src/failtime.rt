// Who must go in three networks, by what was reported.
ghost use Rattle.std.specs.Prelude.{◌≡◌, length, IfOk};

use crate::network::{Network, TWO_HOSTS, TWO_WAYS, build};
use pipe_base::{HostId, LinkId, NoMemory, Ts};
use pipe_failtime::{doomed, failure_time, is_cut, useless};
use pipe_topo::{HostSet, LinkSet, Reports, TopoFault, Topology};
use std::alloc::Global;
use std::process::Abort;

// A network with the reports of some links; who is doomed, and cut off then; failure times of some hosts; useless links.
struct Case {
    network: Network,
    reports: &'static [(u16, u64)],
    doomed: &'static [u16],
    times: &'static [(u16, Option<Ts>)],
    useless: &'static [u16],
}

// Two hosts under one switch and three under another, with two ways between them.
const FIVE_HOSTS: Network = Network {
    hosts: 5,
    levels: &[1, 1, 2, 2],
    cables: &[
        (0, 100),
        (1, 100),
        (2, 101),
        (3, 101),
        (4, 101),
        (100, 102),
        (100, 103),
        (101, 102),
        (101, 103),
    ],
    patience: 100,
};

static CASES: [Case; 3] = [
    // Both ways up from a switch with two hosts, of five.
    Case {
        network: FIVE_HOSTS,
        reports: &[(10, 30), (12, 35)],
        doomed: &[0, 1],
        times: &[(0, Some(Ts(35))), (1, Some(Ts(35)))],
        useless: &[0, 2, 18],
    },
    // One of two ways between two hosts.
    Case {
        network: TWO_WAYS,
        reports: &[(4, 0)],
        doomed: &[],
        times: &[(0, Some(Ts(0)))],
        useless: &[],
    },
    // A star without reports.
    Case {
        network: TWO_HOSTS,
        reports: &[],
        doomed: &[],
        times: &[(0, None)],
        useless: &[],
    },
];

fn reports_of(
    rt: &impl Abort,
    alloc: Global,
    links: u16,
    values: &[(u16, u64)],
) -> Result<Reports, NoMemory>
    ensures { IfOk result (λ reports. length reports ≡ links) }
{
    let mut reports = Reports::none(alloc, links)?;
    for (link, value) in values {
        assert!(rt; *link < links);
        reports.set(LinkId(*link), Ts(*value));
    }
    Ok(reports)
}

fn has(hosts: &HostSet, host: u16) -> bool {
    host < 64 && hosts.has(HostId(host))
}

// The first so many hosts without those that are doomed.
fn kept_of(rt: &impl Abort, hosts: u16, doomed: &HostSet) -> HostSet {
    assert!(rt; hosts <= 64);
    let mut kept = HostSet::first(hosts);
    for host in 0..hosts {
        if has(doomed, host) {
            kept.remove(HostId(host));
        }
    }
    kept
}

fn are(rt: &impl Abort, doomed: &HostSet, wanted: &[u16]) {
    for host in 0..64 {
        assert!(rt; has(doomed, host) == wanted.contains(&host));
    }
}

fn are_cut(
    rt: &impl Abort,
    alloc: Global,
    topology: &Topology,
    live: &LinkSet,
    reports: &Reports,
    kept: &HostSet,
    wanted: &[u16],
) -> Result<(), NoMemory>
    requires live { length live.now ≡ length topology.now.links }
    requires reports { length reports.now ≡ length topology.now.links }
{
    for host in 0..topology.hosts() {
        let cut = is_cut(alloc, topology, HostId(host), live, reports, kept)?;
        assert!(rt; cut == wanted.contains(&host));
    }
    Ok(())
}

fn have_times(
    rt: &impl Abort,
    alloc: Global,
    topology: &Topology,
    live: &LinkSet,
    reports: &Reports,
    times: &[(u16, Option<Ts>)],
) -> Result<(), NoMemory>
    requires live { length live.now ≡ length topology.now.links }
    requires reports { length reports.now ≡ length topology.now.links }
{
    for (host, time) in times {
        assert!(rt; *host < topology.hosts());
        let found = failure_time(alloc, topology, HostId(*host), live, reports)?;
        assert!(rt; found == *time);
    }
    Ok(())
}

fn are_useless(
    rt: &impl Abort,
    alloc: Global,
    topology: &Topology,
    live: &LinkSet,
    reports: &Reports,
    kept: &HostSet,
    wanted: &[u16],
) -> Result<(), NoMemory>
    requires live { length live.now ≡ length topology.now.links }
    requires reports { length reports.now ≡ length topology.now.links }
{
    let links = useless(alloc, topology, live, reports, kept)?;
    for link in 0..topology.links() {
        assert!(rt; links.has(LinkId(link)) == wanted.contains(&link));
    }
    Ok(())
}

fn decide(
    rt: &impl Abort,
    alloc: Global,
    topology: &Topology,
    live: &LinkSet,
    reports: &Reports,
    case: &Case,
) -> Result<(), NoMemory>
    requires live { length live.now ≡ length topology.now.links }
    requires reports { length reports.now ≡ length topology.now.links }
{
    let members = HostSet::first(topology.hosts());
    let none = HostSet::none();
    let gone = doomed(alloc, topology, &members, live, reports, &none)?;
    let kept = kept_of(rt, topology.hosts(), &gone);
    are(rt, &gone, case.doomed);
    are_cut(rt, alloc, topology, live, reports, &kept, case.doomed)?;
    have_times(rt, alloc, topology, live, reports, case.times)?;
    are_useless(rt, alloc, topology, live, reports, &kept, case.useless)
}

fn play(rt: &impl Abort, alloc: Global, case: &Case) -> Result<(), TopoFault> {
    let topology = build(rt, alloc, &case.network)?;
    let live = LinkSet::all(alloc, topology.links())?;
    let reports = reports_of(rt, alloc, topology.links(), case.reports)?;
    Ok(decide(rt, alloc, &topology, &live, &reports, case)?)
}

#[test]
fn who_must_go(rt: HostRuntime) -> Result<(), TopoFault> {
    for case in &CASES {
        play(&rt, rt.alloc(), case)?;
    }
    Ok(())
}
