// What the messages to the controller change.
ghost use Rattle.std.specs.Prelude.{◌≡◌, ◌==◌, nat_lt, length};
ghost use Rattle.pipe_control.specs.Known.{count_of, counts_with, reports_with};
ghost use Rattle.pipe_topo.specs.Reports.{report_of};
ghost use Rattle.pipe_topo.specs.Sets.{has};

use crate::counts::Counts;
use pipe_base::{HostId, LinkId, NodeId, Ts};
use pipe_topo::{HostSet, LinkSet, Reports};

// Keeps a report, where it is the first of a live link.
pub fn note_report(links: u16, live: &LinkSet, reports: &mut Reports, link: LinkId, value: Ts)
    requires live { length live.now ≡ links }
    requires reports { length reports.old ≡ links }
    ensures size { length reports.new ≡ length reports.old }
    ensures value { report_of reports.new ≡ reports_with (has live.now) link value (report_of reports.old) }
{
    if link.0 < links && live.has(link) && reports.value(link).is_none() {
        reports.set(link, value);
    }
}

// Keeps a member's count of announced hosts, where it is at most as many as there are.
pub fn note_done(members: &HostSet, most: usize, done: &mut Counts, host: HostId, count: u16)
    requires { length done.old ≡ 64 }
    ensures size { length done.new ≡ length done.old }
    ensures value { count_of done.new ≡ counts_with (has members.now host.0) most host.0 count (count_of done.old) }
{
    let members = members.copy();
    if members.has_node(NodeId(host.0)) && usize::from(count) <= most {
        done.raise(host.0, count);
    }
}

// Keeps a node's count of dropped links, where it is at most as many as there are.
pub fn note_gone(most: usize, gone: &mut Counts, node: NodeId, count: u16)
    ensures size { length gone.new ≡ length gone.old }
    ensures value { count_of gone.new ≡ counts_with (nat_lt node.0 (length gone.old)) most node.0 count (count_of gone.old) }
{
    if usize::from(node.0) < gone.len() && usize::from(count) <= most {
        gone.raise(node.0, count);
    }
}
