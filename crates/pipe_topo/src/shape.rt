// The faults of a plan that can be seen without looking for paths.
ghost use Rattle.std.specs.Prelude.{◌≡◌, ℕ, ◌<◌, ◌≤◌, ◌^◌, length, position, Option, None, IfSome};
ghost use Rattle.std.specs.List.{list_any};
ghost use Rattle.pipe_topo.specs.Fault.{double_fault, idle_fault, is_idle, is_level, leads_down, level_fault, repeats, same_end, same_ends, shape_fault, too_many};
ghost use Rattle.pipe_topo.specs.First.{first_below};
ghost use Rattle.pipe_topo.specs.Plan.{IsSmall, level_of, lower_first, rises};
ghost use Rattle.pipe_base.specs.Limits.{most_switches};

use crate::{Cable, CableEnd, TopoFault, What};

const HOST_LIMIT: usize = 64;

const SWITCH_LIMIT: usize = 64;

const CABLE_LIMIT: usize = 512;

// The first fault by hosts, switches and cables alone.
pub fn shape_fault(hosts: u16, levels: &[u8], cables: &[Cable]) -> Option<TopoFault>
    requires countable_levels { length levels.now < 2 ^ 32 }
    requires countable_cables { length cables.now < 2 ^ 32 }
    ensures value { result ≡ shape_fault hosts levels.now cables.now }
    ensures small { result ≡ None → IsSmall hosts (length levels.now) (length cables.now) }
{
    if hosts == 0 {
        return Some(TopoFault::NoHost);
    }
    if let Some(fault) = too_many(What::Hosts, HOST_LIMIT, usize::from(hosts)) {
        return Some(fault);
    }
    if let Some(fault) = too_many(What::Switches, SWITCH_LIMIT, levels.len()) {
        return Some(fault);
    }
    if let Some(fault) = too_many(What::Cables, CABLE_LIMIT, cables.len()) {
        return Some(fault);
    }
    if let Some(fault) = level_fault(levels, cables) {
        return Some(fault);
    }
    if let Some(fault) = double_fault(cables) {
        return Some(fault);
    }
    idle_fault(levels, cables)
}

fn too_many(what: What, limit: usize, count: usize) -> Option<TopoFault>
    requires { count < 2 ^ 32 }
    ensures { result ≡ too_many what limit count }
{
    if limit < count {
        return Some(TopoFault::TooMany {
            what,
            count: count as u32,
        });
    }
    None
}

fn level_fault(levels: &[u8], cables: &[Cable]) -> Option<TopoFault>
    requires { length cables.now ≤ 512 }
    ensures { result ≡ level_fault levels.now cables.now }
{
    let at = first_level(levels, cables)?;
    Some(TopoFault::Level { cable: at as u16 })
}

fn first_level(levels: &[u8], cables: &[Cable]) -> Option<usize>
    ensures value { result ≡ position (is_level levels.now) cables.now }
    ensures below { IfSome result (λ at. at < length cables.now) }
{
    cables.iter().position(|c| is_level(levels, *c))
}

// The cable joins two hosts, or two switches of one level.
fn is_level(levels: &[u8], cable: Cable) -> bool
    ensures { result ≡ is_level levels.now cable }
{
    match cable {
        (CableEnd::Host(_), CableEnd::Host(_)) => true,
        (CableEnd::Switch(a), CableEnd::Switch(b)) => level_of(levels, a) == level_of(levels, b),
        _ => false,
    }
}

fn double_fault(cables: &[Cable]) -> Option<TopoFault>
    requires { length cables.now ≤ 512 }
    ensures { result ≡ double_fault cables.now }
{
    let at = first_double(cables)?;
    Some(TopoFault::DoubleCable { cable: at as u16 })
}

#[tactic(auto, using(crate::proofs::FirstLaws::first_at, crate::proofs::FirstLaws::first_more))]
fn first_double(cables: &[Cable]) -> Option<usize>
    ensures value { result ≡ first_below (repeats cables.now) (length cables.now) }
    ensures below { IfSome result (λ at. at < length cables.now) }
{
    for at in 0..cables.len() {
        if repeats(cables, at) {
            return Some(at);
        }
    }
    None
}

// An earlier cable joins the same two.
fn repeats(cables: &[Cable], at: usize) -> bool
    requires { at < length cables.now }
    ensures { result ≡ repeats cables.now at }
{
    let cable = cables[at];
    cables[..at].iter().any(|c| same_ends(*c, cable))
}

fn same_ends(c: Cable, d: Cable) -> bool
    ensures { result ≡ same_ends c d }
{
    (same_end(c.0, d.0) && same_end(c.1, d.1)) || (same_end(c.0, d.1) && same_end(c.1, d.0))
}

fn same_end(a: CableEnd, b: CableEnd) -> bool
    ensures { result ≡ same_end a b }
{
    match (a, b) {
        (CableEnd::Host(a), CableEnd::Host(b)) => a == b,
        (CableEnd::Switch(a), CableEnd::Switch(b)) => a == b,
        _ => false,
    }
}

fn idle_fault(levels: &[u8], cables: &[Cable]) -> Option<TopoFault>
    requires { length levels.now ≤ most_switches }
    ensures { result ≡ idle_fault levels.now cables.now }
{
    let switch = first_idle(levels, cables)?;
    Some(TopoFault::Idle { switch })
}

#[tactic(auto, using(crate::proofs::FirstLaws::first_at, crate::proofs::FirstLaws::first_more))]
fn first_idle(levels: &[u8], cables: &[Cable]) -> Option<u16>
    requires { length levels.now ≤ most_switches }
    ensures { result ≡ first_below (is_idle levels.now cables.now) (length levels.now) }
{
    let switches = levels.len() as u16;
    for switch in 0..switches {
        if is_idle(levels, cables, switch) {
            return Some(switch);
        }
    }
    None
}

fn is_idle(levels: &[u8], cables: &[Cable], switch: u16) -> bool
    ensures { result ≡ is_idle levels.now cables.now switch }
{
    !is_busy(levels, cables, switch)
}

fn is_busy(levels: &[u8], cables: &[Cable], switch: u16) -> bool
    ensures { result ≡ list_any (leads_down levels.now switch) cables.now }
{
    cables.iter().any(|c| leads_down(levels, switch, *c))
}

// The cable leads from the switch down to a host or a lower switch.
fn leads_down(levels: &[u8], switch: u16, cable: Cable) -> bool
    ensures { result ≡ leads_down levels.now switch cable }
{
    same_end(lower_first(levels, cable).1, CableEnd::Switch(switch))
}

/// The ends of a cable, the lower one first.
pub fn lower_first(levels: &[u8], cable: Cable) -> Cable
    ensures { result ≡ lower_first levels.now cable }
{
    if rises(levels, cable.0, cable.1) {
        cable
    } else {
        (cable.1, cable.0)
    }
}

fn rises(levels: &[u8], from: CableEnd, to: CableEnd) -> bool
    ensures { result ≡ rises levels.now from to }
{
    match (from, to) {
        (CableEnd::Host(_), _) => true,
        (CableEnd::Switch(_), CableEnd::Host(_)) => false,
        (CableEnd::Switch(a), CableEnd::Switch(b)) => level_of(levels, a) < level_of(levels, b),
    }
}

fn level_of(levels: &[u8], switch: u16) -> u8
    ensures { result ≡ level_of levels.now switch }
{
    levels.get(usize::from(switch)).copied().unwrap_or(0)
}
