// The numbers of names.
ghost use Rattle.std.specs.Prelude.{◌≡◌, ◌≤◌, ◌<◌, ◌+◌, false, length, map, All, IfOk, Ok};
ghost use Rattle.pipe_topo.specs.NodeNames.{has_dot};
ghost use Rattle.pipe_text_plan.specs.Described.{all_names};
ghost use Rattle.pipe_text_plan.specs.Numbering.{numbered};
ghost use Rattle.pipe_text_plan.specs.Refused.{RefusesLike};

use crate::fault::{PlanError, PlanFault};
use crate::name::is_name;
use pipe_base::NoMemory;
use pipe_topo::Names;
use std::alloc::Global;

// The names of the hosts and then those of the switches.
pub fn all_names<'a>(
    alloc: Global,
    hosts: &[&'a str],
    switches: &[(&'a str, u8)],
) -> Result<Vec<&'a str>, NoMemory>
    ensures { IfOk result (λ names. map (λ name. name.now) names.items
        ≡ all_names (map (λ host. host.now) hosts.now) (map (λ switch. (switch.0.now, switch.1)) switches.now)) }
{
    let mut names = Vec::from_slice(alloc, hosts)?;
    for (name, _) in switches {
        names.push(*name)?;
    }
    Ok(names)
}

// Gives each name its place as its number.
pub fn numbered(alloc: Global, all: &[&str]) -> Result<Names, PlanError>
    requires { length all.now < 65535 }
    ensures ok { IfOk result (λ names. numbered (map (λ name. name.now) all.now) ≡ Ok names) }
    ensures dotless { IfOk result (All (λ name. has_dot name ≡ false)) }
    ensures fault { RefusesLike result (numbered (map (λ name. name.now) all.now)) }
{
    let mut names = Names::new(alloc);
    'names: for name in all {
        if !is_name(name) {
            return Err(wrong_name(&names));
        }
        if !names.add(name)? {
            return Err(wrong_name(&names));
        }
    }
    Ok(names)
}

// The name after these is wrong.
fn wrong_name(names: &Names) -> PlanError
    ensures { result ≡ PlanError.Plan (PlanFault.Name (length names.now)) }
{
    PlanError::Plan(PlanFault::Name { at: names.len() })
}
