// The line of a star.
ghost use Rattle.std.specs.Prelude.{◌≡◌, ◌≤◌, false, map, All, IfOk, IfSome};
ghost use Rattle.pipe_topo.specs.NodeNames.{has_dot};
ghost use Rattle.pipe_text_plan.specs.Star.{star_with, star_of, star_names};
ghost use Rattle.pipe_base.specs.Limits.{most_hosts};

use crate::patience::{PATIENCE, PATIENCE_LIMIT};
use pipe_base::NoMemory;
use pipe_text::read_number;
use pipe_topo::Names;
use std::alloc::Global;

// The number of hosts and the patience.
pub fn star_of(words: &[&[u8]]) -> Option<(u16, u64)>
    ensures value { result ≡ star_of (map (λ word. word.now) words.now) }
    ensures few { IfSome result (λ star. (1 ≤ star.0) × (star.0 ≤ most_hosts)) }
{
    match words {
        [_, hosts] => star_with(read_number(hosts, 64), Some(PATIENCE)),
        [_, hosts, patience] => star_with(
            read_number(hosts, 64),
            read_number(patience, PATIENCE_LIMIT),
        ),
        _ => None,
    }
}

fn star_with(hosts: Option<u64>, patience: Option<u64>) -> Option<(u16, u64)>
    requires { IfSome hosts (λ n. n ≤ most_hosts) }
    ensures value { result ≡ star_with hosts patience }
    ensures few { IfSome result (λ star. (1 ≤ star.0) × (star.0 ≤ most_hosts)) }
{
    let (Some(hosts), Some(patience)) = (hosts, patience) else {
        return None;
    };
    if hosts == 0 || patience == 0 {
        return None;
    }
    Some((hosts as u16, patience))
}

// The hosts' names and then the switch's.
pub fn star_names(alloc: Global, hosts: u16) -> Result<Names, NoMemory>
    requires { hosts ≤ most_hosts }
    ensures names { IfOk result (λ names. names ≡ star_names hosts) }
    ensures dotless { IfOk result (All (λ name. has_dot name ≡ false)) }
{
    let mut names = Names::new(alloc);
    for host in 0..hosts {
        let name = format!(in alloc; "h{host}")?;
        let _ = names.add(name.as_str())?;
    }
    let _ = names.add("s0")?;
    Ok(names)
}
