// A network of known shape, and sets and names. Each fault of a network is shown by the program, in `.ci`.

use crate::network::{TWO_WAYS, build};
use pipe_base::{HostId, LinkId, NoMemory, NodeId};
use pipe_topo::{HostSet, LinkSet, Names, TopoFault, Topology};
use std::alloc::Global;
use std::process::Abort;

// The tail and the head of each link.
static ENDS: [(u16, u16); 16] = [
    (0, 2),
    (3, 0),
    (1, 4),
    (5, 1),
    (2, 6),
    (7, 3),
    (2, 8),
    (9, 3),
    (4, 6),
    (7, 5),
    (4, 8),
    (9, 5),
    (2, 3),
    (4, 5),
    (6, 7),
    (8, 9),
];

fn has_ends(topology: &Topology, link: u16, ends: (u16, u16)) -> bool {
    link < topology.links()
        && topology.tail(LinkId(link)).0 == ends.0
        && topology.head(LinkId(link)).0 == ends.1
}

fn have_ends(rt: &impl Abort, topology: &Topology) {
    for (link, ends) in ENDS.iter().enumerate() {
        assert!(rt; has_ends(topology, link as u16, *ends));
    }
}

// The links into each node and out of it.
static LINKS: [(&[u16], &[u16]); 10] = [
    (&[1], &[0]),
    (&[3], &[2]),
    (&[0], &[4, 6, 12]),
    (&[5, 7, 12], &[1]),
    (&[2], &[8, 10, 13]),
    (&[9, 11, 13], &[3]),
    (&[4, 8], &[14]),
    (&[14], &[5, 9]),
    (&[6, 10], &[15]),
    (&[15], &[7, 11]),
];

fn are_links(links: &[LinkId], numbers: &[u16]) -> bool {
    links.len() == numbers.len() && links.iter().zip(numbers).all(|(link, n)| link.0 == *n)
}

fn has_links(topology: &Topology, node: u16, ins: &[u16], outs: &[u16]) -> bool {
    node < topology.nodes()
        && are_links(topology.ins(NodeId(node)), ins)
        && are_links(topology.outs(NodeId(node)), outs)
}

fn have_links(rt: &impl Abort, topology: &Topology) {
    for (node, (ins, outs)) in LINKS.iter().enumerate() {
        assert!(rt; has_links(topology, node as u16, ins, outs));
    }
}

// By all links but one the first host reaches the second, and feeds the loop of the third switch.
fn ways_without(
    rt: &impl Abort,
    alloc: Global,
    topology: &Topology,
    gone: u16,
) -> Result<(bool, bool), NoMemory> {
    assert!(rt; topology.hosts() == 2 && topology.links() == 16 && gone < 16);
    let mut by = LinkSet::all(alloc, 16)?;
    by.remove(LinkId(gone));
    Ok((
        topology.reaches(alloc, NodeId(0), NodeId(1), &by)?,
        topology.feeds(alloc, HostId(0), LinkId(14), &by)?,
    ))
}

static WAYS: [(u16, (bool, bool)); 3] = [
    (1, (true, true)),
    (4, (true, false)),
    (0, (false, false)),
];

fn have_ways(rt: &impl Abort, alloc: Global, topology: &Topology) -> Result<(), NoMemory> {
    for (gone, ways) in &WAYS {
        assert!(rt; ways_without(rt, alloc, topology, *gone)? == *ways);
    }
    Ok(())
}

// Its hosts, switches, nodes and links, and its patience.
fn sizes(topology: &Topology) -> [u64; 5] {
    [
        u64::from(topology.hosts()),
        u64::from(topology.switches()),
        u64::from(topology.nodes()),
        u64::from(topology.links()),
        topology.patience().0,
    ]
}

#[test]
fn a_network_has_its_links_and_ways(rt: HostRuntime) -> Result<(), TopoFault> {
    let topology = build(&rt, rt.alloc(), &TWO_WAYS)?.try_clone()?;
    assert!(rt; sizes(&topology) == [2, 4, 10, 16, 100]);
    have_ends(&rt, &topology);
    have_links(&rt, &topology);
    have_ways(&rt, rt.alloc(), &topology)?;
    Ok(())
}

#[test]
fn sets_of_links(rt: HostRuntime) -> Result<(), NoMemory> {
    let mut links = LinkSet::none(rt.alloc(), 3)?;
    links.insert(LinkId(2));
    let rest = links.try_clone()?.rest()?;
    assert!(rt; links.has(LinkId(2)) && !links.has(LinkId(1)));
    assert!(rt; rest.has(LinkId(1)) && !rest.has(LinkId(2)));
    Ok(())
}

// Each name, and whether it is new.
static ADDED: [(&str, bool); 4] = [("h1", true), ("h0", true), ("h1", false), ("s0", true)];

fn add_all(rt: &impl Abort, names: &mut Names) -> Result<(), NoMemory> {
    for (name, new) in &ADDED {
        assert!(rt; names.len() < 100);
        assert!(rt; names.add(name)? == *new);
    }
    Ok(())
}

fn three_names(rt: &impl Abort, alloc: Global) -> Result<Names, NoMemory> {
    let mut names = Names::new(alloc);
    add_all(rt, &mut names)?;
    names.try_clone()
}

// The names in their order, and one that is not there.
static NUMBERS: [(&str, Option<u16>); 4] = [
    ("h1", Some(0)),
    ("h0", Some(1)),
    ("s0", Some(2)),
    ("h2", None),
];

fn is_named(names: &Names, number: u16, name: &str) -> bool {
    number < names.len() && names.name(number) == name
}

fn are_numbered(rt: &impl Abort, names: &Names) {
    for (at, (name, number)) in NUMBERS.iter().enumerate() {
        assert!(rt; names.number(name) == *number);
        assert!(rt; is_named(names, at as u16, name) == number.is_some());
    }
}

#[test]
fn names_keep_their_numbers(rt: HostRuntime) -> Result<(), NoMemory> {
    let names = three_names(&rt, rt.alloc())?;
    are_numbered(&rt, &names);
    assert!(rt; Names::new(rt.alloc()).is_empty());
    Ok(())
}

fn has(hosts: HostSet, host: u16) -> bool {
    host < 64 && hosts.has(HostId(host))
}

// The hosts 1 to 61 and 63.
fn some_hosts() -> HostSet {
    let mut hosts = HostSet::first(62);
    hosts.insert(HostId(63));
    hosts.remove(HostId(0));
    hosts
}

static THERE: [(u16, bool); 5] = [(0, false), (1, true), (61, true), (62, false), (63, true)];

#[test]
fn sets_of_hosts(rt: HostRuntime) {
    for (host, there) in &THERE {
        assert!(rt; has(some_hosts(), *host) == *there);
    }
    assert!(rt; has(HostSet::first(64), 63) && !has(HostSet::none(), 63));
}
