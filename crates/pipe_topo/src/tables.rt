// The graph of a plan, and its tables of the links at each node.
ghost use Rattle.std.specs.Prelude.{◌≡◌, ℕ, ◌+◌, ◌*◌, ◌<◌, ◌≤◌, [], ◌∷◌, ◌++◌, length, replicate, slice_index_or, slice_set, All, IfOk, OnOk};
ghost use Rattle.pipe_topo.specs.Plan.{HasEnds, IsEnd, IsPlan, down_node, graph_of, links_between, loop_of, plan_links, up_node};
ghost use Rattle.pipe_topo.specs.Tables.{IsListed, IsSmallEnd, head_at, tail_at};
ghost use Rattle.pipe_base.specs.Limits.{most_hosts, most_switches};

use crate::shape::lower_first;
use crate::wiring::Wiring;
use crate::{Cable, CableEnd, Plan};
use pipe_base::{LAST_STAMP, Link, LinkId, List, NoMemory, NodeId, Ts};
use std::alloc::Global;

// The wiring of a plan without a fault in its shape.
pub fn wiring_of(alloc: Global, plan: &Plan) -> Result<Wiring, NoMemory>
    requires { IsPlan plan.now }
    ensures { IfOk result (λ wiring. wiring ≡ graph_of plan.now) }
{
    let levels = plan.levels.as_slice();
    let switches = levels.len() as u16;
    let links = links_of(alloc, plan.hosts, levels, plan.cables.as_slice())?;
    let nodes = usize::from(plan.hosts) + 2 * levels.len();
    let listed = links.as_slice();
    let ins = ins_table(alloc, nodes, listed)?;
    let outs = outs_table(alloc, nodes, listed)?;
    Ok(Wiring {
        hosts: plan.hosts,
        switches,
        links,
        ins,
        outs,
        patience: plan.patience,
        top: Ts(LAST_STAMP),
    })
}

fn links_of(
    alloc: Global,
    hosts: u16,
    levels: &[u8],
    cables: &[Cable],
) -> Result<Vec<Link>, NoMemory>
    requires few_hosts { hosts ≤ most_hosts }
    requires few_switches { length levels.now ≤ most_switches }
    requires ends { HasEnds hosts (length levels.now) cables.now }
    ensures { IfOk result (λ links. links.items ≡ plan_links hosts levels.now cables.now) }
{
    let mut links = Vec::new(alloc);
    for cable in cables {
        add_cable(&mut links, hosts, lower_first(levels, *cable))?;
    }
    let switches = levels.len() as u16;
    for switch in 0..switches {
        links.push(loop_of(hosts, switch))?;
    }
    Ok(links)
}

// The two links of a cable that is given with its lower end first.
fn add_cable(links: &mut Vec<Link>, hosts: u16, cable: Cable) -> Result<(), NoMemory>
    requires few { hosts ≤ most_hosts }
    requires lower { IsSmallEnd cable.0 }
    requires upper { IsSmallEnd cable.1 }
    ensures { OnOk result (links.new.items ≡ links.old.items ++ links_between hosts cable) }
{
    let (low, high) = cable;
    links.push(Link {
        tail: up_node(hosts, low),
        head: up_node(hosts, high),
    })?;
    links.push(Link {
        tail: down_node(hosts, high),
        head: down_node(hosts, low),
    })?;
    Ok(())
}

fn loop_of(hosts: u16, switch: u16) -> Link
    requires few { hosts ≤ most_hosts }
    requires small { switch < most_switches }
    ensures { result ≡ loop_of hosts switch }
{
    let end = CableEnd::Switch(switch);
    Link {
        tail: up_node(hosts, end),
        head: down_node(hosts, end),
    }
}

fn up_node(hosts: u16, end: CableEnd) -> NodeId
    requires few { hosts ≤ most_hosts }
    requires small { IsSmallEnd end }
    ensures { result.0 ≡ up_node hosts end }
{
    match end {
        CableEnd::Host(host) => NodeId(host),
        CableEnd::Switch(switch) => NodeId(hosts + 2 * switch),
    }
}

fn down_node(hosts: u16, end: CableEnd) -> NodeId
    requires few { hosts ≤ most_hosts }
    requires small { IsSmallEnd end }
    ensures { result.0 ≡ down_node hosts end }
{
    match end {
        CableEnd::Host(host) => NodeId(host),
        CableEnd::Switch(switch) => NodeId(hosts + 2 * switch + 1),
    }
}

fn ins_table(alloc: Global, nodes: usize, links: &[Link]) -> Result<Vec<List<LinkId>>, NoMemory>
    requires few { length links.now ≤ 65535 }
    requires known { All (λ l. l.head.0 < nodes) links.now }
    ensures { IfOk result (λ table. IsListed (head_at links.now) nodes (length links.now) table.items) }
{
    let mut table = empty_table(alloc, nodes)?;
    for (number, link) in links.iter().enumerate() {
        add_link(&mut table, link.head, LinkId(number as u16))?;
    }
    Ok(table)
}

fn outs_table(alloc: Global, nodes: usize, links: &[Link]) -> Result<Vec<List<LinkId>>, NoMemory>
    requires few { length links.now ≤ 65535 }
    requires known { All (λ l. l.tail.0 < nodes) links.now }
    ensures { IfOk result (λ table. IsListed (tail_at links.now) nodes (length links.now) table.items) }
{
    let mut table = empty_table(alloc, nodes)?;
    for (number, link) in links.iter().enumerate() {
        add_link(&mut table, link.tail, LinkId(number as u16))?;
    }
    Ok(table)
}

fn empty_table(alloc: Global, nodes: usize) -> Result<Vec<List<LinkId>>, NoMemory>
    ensures { IfOk result (λ table. table.items ≡ replicate nodes []) }
{
    let mut table = Vec::new(alloc);
    for _ in 0..nodes {
        table.push(List::new(alloc))?;
    }
    Ok(table)
}

fn add_link(table: &mut Vec<List<LinkId>>, node: NodeId, link: LinkId) -> Result<(), NoMemory>
    requires { node.0 < length table.old.items }
    ensures { OnOk result (table.new.items ≡ slice_set table.old.items node.0 (slice_index_or table.old.items node.0 [] ++ link ∷ [])) }
{
    table[usize::from(node.0)].push(link)
}
