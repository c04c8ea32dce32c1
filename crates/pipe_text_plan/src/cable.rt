// The texts of cables.
ghost use Rattle.std.specs.Prelude.{◌≡◌, ◌≤◌, length, map, IfOk, Ok};
ghost use Rattle.pipe_text_plan.specs.Cable.{end_of, cable_of, cables_of};
ghost use Rattle.pipe_text_plan.specs.Refused.{RefusesLike};

use crate::fault::{PlanError, PlanFault};
use crate::space::around_space;
use pipe_topo::{Cable, CableEnd, Names};
use std::alloc::Global;

// The host or the switch of a name; the hosts' numbers come first.
fn end_of(hosts: u16, names: &Names, name: &str) -> Option<CableEnd>
    ensures { result ≡ end_of hosts names.now name.now }
{
    let number = names.number(name)?;
    if number < hosts {
        Some(CableEnd::Host(number))
    } else {
        Some(CableEnd::Switch(number - hosts))
    }
}

// Two of the names, with one space between.
fn cable_of(hosts: u16, names: &Names, text: &str) -> Option<Cable>
    ensures { result ≡ cable_of hosts names.now text.now }
{
    let (first, second) = around_space(text)?;
    Some((end_of(hosts, names, first)?, end_of(hosts, names, second)?))
}

pub fn cables_of(
    alloc: Global,
    hosts: u16,
    names: &Names,
    texts: &[&str],
) -> Result<Vec<Cable>, PlanError>
    requires { length texts.now ≤ 32767 }
    ensures ok { IfOk result (λ cables. cables_of hosts names.now (map (λ text. text.now) texts.now)
        ≡ Ok cables.items) }
    ensures fault { RefusesLike result (cables_of hosts names.now (map (λ text. text.now) texts.now)) }
{
    let mut cables = Vec::new(alloc);
    'texts: for text in texts {
        let Some(cable) = cable_of(hosts, names, text) else {
            let at = cables.len() as u16;
            return Err(PlanError::Plan(PlanFault::CableText { at }));
        };
        cables.push(cable)?;
    }
    Ok(cables)
}
