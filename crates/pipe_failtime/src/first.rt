// Which host must go next, of those that are left.
ghost use Rattle.std.specs.Prelude.{◌≡◌, ℕ, ◌<◌, ◌≤◌, ◌&&◌, not, IfSome};
ghost use Rattle.pipe_graph.specs.Below.{any_below};
ghost use Rattle.pipe_graph.specs.Reach.{reaches};
ghost use Rattle.pipe_topo.specs.Sets.{has};
ghost use Rattle.pipe_graph.specs.Count.{count_below};
ghost use Rattle.pipe_graph.specs.Doomed.{are_partners, goes_before, has_strangers, is_stranger, standing_of};
ghost use Rattle.pipe_failtime.specs.First.{first_to_go, goes_rather, next_to_go};
ghost use Rattle.pipe_base.specs.Limits.{most_hosts};

use crate::reach::Reach;
use pipe_base::HostId;
use pipe_topo::HostSet;
use std::marker::Model;

// None where any two that are left are partners.
pub fn next_to_go(reach: &Reach<'_>, left: &HostSet) -> Option<u16>
    ensures { result ≡ next_to_go reach.now.graph (has reach.now.by) (has left.now) }
{
    if has_strangers(reach, left) {
        first_to_go(reach, left)
    } else {
        None
    }
}

#[tactic(auto, using(crate::proofs::TestLaws::none_more))]
fn has_strangers(reach: &Reach<'_>, left: &HostSet) -> bool
    ensures { result ≡ has_strangers reach.now.graph (has reach.now.by) (has left.now) }
{
    for host in 0..reach.hosts() {
        if is_stranger(reach, left, host) {
            return true;
        }
    }
    false
}

fn is_stranger(reach: &Reach<'_>, left: &HostSet, host: u16) -> bool
    requires host { host < reach.now.graph.hosts }
    requires small { host < most_hosts }
    ensures { result ≡ is_stranger reach.now.graph (has reach.now.by) (has left.now) host }
{
    left.has(HostId(host)) && lacks_partner(reach, left, host)
}

#[tactic(auto, using(crate::proofs::TestLaws::none_more))]
fn lacks_partner(reach: &Reach<'_>, left: &HostSet, host: u16) -> bool
    requires { host < reach.now.graph.hosts }
    ensures { result ≡ any_below (λ b. has left.now b && not (are_partners reach.now.graph (has reach.now.by) host b)) reach.now.graph.hosts }
{
    for other in 0..reach.hosts() {
        if left.has(HostId(other)) && !reach.are_partners(host, other) {
            return true;
        }
    }
    false
}

fn first_to_go(reach: &Reach<'_>, left: &HostSet) -> Option<u16>
    ensures { result ≡ first_to_go reach.now.graph (has reach.now.by) (has left.now) reach.now.graph.hosts }
{
    let mut first = None;
    for host in 0..reach.hosts() {
        if goes_rather(reach, left, first, host) {
            first = Some(host);
        }
    }
    first
}

fn goes_rather(reach: &Reach<'_>, left: &HostSet, first: Option<u16>, host: u16) -> bool
    requires host { host < reach.now.graph.hosts }
    requires small { host < most_hosts }
    requires first { IfSome first (λ f. f < reach.now.graph.hosts) }
    ensures { result ≡ goes_rather reach.now.graph (has reach.now.by) (has left.now) first host }
{
    if !left.has(HostId(host)) {
        return false;
    }
    match first {
        None => true,
        Some(first) => goes_before(
            &standing_of(reach, left, host),
            &standing_of(reach, left, first),
        ),
    }
}

// How a host stands among those that are left.
#[derive(Drop)]
struct Standing {
    host: u16,
    partners: u16,
    reached: u16,
}

impl Model for Standing {
    ghost use Rattle.pipe_graph.specs.Doomed as doomed;

    ghost Value = { doomed.Standing };

    ghost view = { λ s. record { host = s.host; partners = s.partners; reached = s.reached } };
}

fn goes_before(a: &Standing, b: &Standing) -> bool
    ensures { result ≡ goes_before a.now b.now }
{
    a.partners < b.partners
        || a.partners == b.partners
            && (a.reached < b.reached || a.reached == b.reached && b.host < a.host)
}

fn standing_of(reach: &Reach<'_>, left: &HostSet, host: u16) -> Standing
    requires { host < reach.now.graph.hosts }
    ensures { result ≡ standing_of reach.now.graph (has reach.now.by) (has left.now) host }
{
    Standing {
        host,
        partners: partner_count(reach, left, host),
        reached: reached_count(reach, left, host),
    }
}

fn partner_count(reach: &Reach<'_>, left: &HostSet, host: u16) -> u16
    requires { host < reach.now.graph.hosts }
    ensures { result ≡ count_below (λ b. has left.now b && are_partners reach.now.graph (has reach.now.by) host b) reach.now.graph.hosts }
{
    let mut count = 0;
    for other in 0..reach.hosts() {
        if left.has(HostId(other)) && reach.are_partners(host, other) {
            count += 1;
        }
    }
    count
}

fn reached_count(reach: &Reach<'_>, left: &HostSet, host: u16) -> u16
    requires { host < reach.now.graph.hosts }
    ensures { result ≡ count_below (λ b. has left.now b && reaches reach.now.graph (has reach.now.by) host b) reach.now.graph.hosts }
{
    let mut count = 0;
    for other in 0..reach.hosts() {
        if left.has(HostId(other)) && reach.reaches(host, other) {
            count += 1;
        }
    }
    count
}
