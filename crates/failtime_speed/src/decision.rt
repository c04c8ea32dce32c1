// One decision, as a controller makes it.
ghost use Rattle.std.specs.Prelude.{◌≡◌, length, IfOk};

use pipe_base::{HostId, LinkId, NoMemory, Ts};
use pipe_failtime::{doomed, failure_time, is_cut, useless};
use pipe_topo::{HostSet, LinkSet, Reports, Topology};
use std::alloc::Global;

/// Reports of so many links, spread over all.
pub fn reports_of(alloc: Global, links: u16, reported: u16) -> Result<Reports, NoMemory>
    ensures { IfOk result (λ reports. length reports ≡ links) }
{
    let mut reports = Reports::none(alloc, links)?;
    if links > 0 {
        for at in 0..reported {
            let link = (u32::from(at) * 91 + 64) % u32::from(links);
            reports.set(LinkId(link as u16), Ts(u64::from(at)));
        }
    }
    Ok(reports)
}

/// Who is doomed, who is cut, all failure times and what is useless, as one number.
pub fn decided(
    alloc: Global,
    topology: &Topology,
    live: &LinkSet,
    reports: &Reports,
) -> Result<u64, NoMemory>
    requires live { length live.now ≡ length topology.now.links }
    requires reports { length reports.now ≡ length topology.now.links }
{
    let members = HostSet::first(64);
    let none = HostSet::none();
    let gone = doomed(alloc, topology, &members, live, reports, &none)?;
    let mut kept = HostSet::first(64);
    let mut sum = 0u64;
    for host in 0..64u16 {
        if gone.has(HostId(host)) {
            kept.remove(HostId(host));
            sum = sum.wrapping_add(1);
        }
    }
    for host in 0..topology.hosts() {
        if is_cut(alloc, topology, HostId(host), live, reports, &kept)? {
            sum = sum.wrapping_add(100);
        }
        if let Some(time) = failure_time(alloc, topology, HostId(host), live, reports)? {
            sum = sum.wrapping_add(time.0);
        }
    }
    let links = useless(alloc, topology, live, reports, &kept)?;
    for link in 0..topology.links() {
        if links.has(LinkId(link)) {
            sum = sum.wrapping_add(10_000);
        }
    }
    Ok(sum)
}
