// Routes in a network of two ways, in a star and in a fat tree.

use crate::network::{Network, TWO_WAYS, build};
use pipe_base::{HostId, LinkId, NoMemory, NodeId, Router};
use pipe_route::Routes;
use pipe_topo::{LinkSet, TopoFault, Topology};
use std::alloc::Global;
use std::process::Abort;

/// A sender, a receiver, and the link on which the packet goes.
type Way = (u16, u16, Option<u16>);

/// The ways at a node of a network, with one link dropped or none.
struct Case {
    network: Network,
    node: u16,
    dropped: Option<u16>,
    ways: &'static [Way],
}

const STAR: Network = Network {
    hosts: 3,
    levels: &[1],
    cables: &[(0, 100), (1, 100), (2, 100)],
    patience: 100,
};

// Two edges and two aggregations in each of two pods, and two cores: host i at edge i.
const FAT_TREE: Network = Network {
    hosts: 4,
    levels: &[1, 1, 1, 1, 2, 2, 2, 2, 3, 3],
    cables: &[
        (0, 100),
        (1, 101),
        (2, 102),
        (3, 103),
        (100, 104),
        (100, 105),
        (101, 104),
        (101, 105),
        (102, 106),
        (102, 107),
        (103, 106),
        (103, 107),
        (104, 108),
        (105, 109),
        (106, 108),
        (107, 109),
    ],
    patience: 100,
};

static CASES: [Case; 9] = [
    // Equal ways take turns.
    Case {
        network: TWO_WAYS,
        node: 2,
        dropped: None,
        ways: &[
            (0, 1, Some(6)),
            (1, 1, Some(4)),
            (0, 0, Some(12)),
            (0, 2, None),
        ],
    },
    Case {
        network: TWO_WAYS,
        node: 2,
        dropped: Some(6),
        ways: &[(0, 1, Some(4)), (1, 1, Some(4)), (0, 0, Some(12))],
    },
    // A star has one way.
    Case {
        network: STAR,
        node: 0,
        dropped: None,
        ways: &[(0, 0, Some(0)), (1, 0, Some(0)), (2, 0, Some(0))],
    },
    Case {
        network: STAR,
        node: 1,
        dropped: None,
        ways: &[(0, 2, Some(2)), (1, 2, Some(2)), (2, 2, Some(2))],
    },
    Case {
        network: STAR,
        node: 3,
        dropped: None,
        ways: &[(0, 1, Some(6)), (1, 1, Some(6)), (2, 1, Some(6))],
    },
    Case {
        network: STAR,
        node: 4,
        dropped: None,
        ways: &[(0, 0, Some(1)), (1, 0, Some(1)), (2, 0, Some(1))],
    },
    Case {
        network: STAR,
        node: 4,
        dropped: None,
        ways: &[(0, 2, Some(5)), (1, 2, Some(5)), (2, 2, Some(5))],
    },
    Case {
        network: FAT_TREE,
        node: 4,
        dropped: None,
        ways: &[
            (0, 1, Some(10)),
            (1, 1, Some(8)),
            (0, 2, Some(8)),
            (0, 3, Some(10)),
            (3, 3, Some(8)),
            (2, 0, Some(32)),
        ],
    },
    // Without the way from the first core down to the second pod.
    Case {
        network: FAT_TREE,
        node: 4,
        dropped: Some(29),
        ways: &[
            (0, 1, Some(10)),
            (1, 1, Some(8)),
            (0, 2, Some(10)),
            (0, 3, Some(10)),
            (3, 3, Some(10)),
            (2, 0, Some(32)),
        ],
    },
];

fn routes_at(
    rt: &impl Abort,
    alloc: Global,
    topology: &Topology,
    node: u16,
    dropped: Option<u16>,
) -> Result<Routes, NoMemory> {
    assert!(rt; node < topology.nodes());
    let mut set = LinkSet::none(alloc, topology.links())?;
    if let Some(link) = dropped {
        assert!(rt; link < topology.links());
        set.insert(LinkId(link));
    }
    Routes::build(alloc, topology, NodeId(node), &set)
}

fn goes(routes: &Routes, src: u16, dst: u16, wanted: Option<u16>) -> bool {
    match routes.pick(HostId(src), HostId(dst)) {
        Some(link) => wanted == Some(link.0),
        None => wanted.is_none(),
    }
}

fn expect(rt: &impl Abort, routes: &Routes, ways: &[Way]) {
    for (src, dst, link) in ways {
        assert!(rt; goes(routes, *src, *dst, *link), "from {src} to {dst}");
    }
}

// A copy from which all links are taken has no way.
fn rebuild_without(
    rt: &impl Abort,
    alloc: Global,
    topology: &Topology,
    routes: &mut Routes,
) -> Result<(), NoMemory> {
    assert!(rt; routes.node().0 < topology.nodes());
    let all = LinkSet::all(alloc, topology.links())?;
    routes.rebuild(topology, &all)?;
    expect(rt, routes, &[(0, 1, None), (1, 1, None), (0, 0, None)]);
    Ok(())
}

fn look(rt: &impl Abort, alloc: Global, topology: &Topology, case: &Case) -> Result<(), NoMemory> {
    let routes = routes_at(rt, alloc, topology, case.node, case.dropped)?;
    expect(rt, &routes, case.ways);
    rebuild_without(rt, alloc, topology, &mut routes.try_clone()?)
}

fn play(rt: &impl Abort, alloc: Global, case: &Case) -> Result<(), TopoFault> {
    let topology = build(rt, alloc, &case.network)?;
    Ok(look(rt, alloc, &topology, case)?)
}

#[test]
fn ways_are_shortest_and_take_turns(rt: HostRuntime) -> Result<(), TopoFault> {
    for case in &CASES {
        play(&rt, rt.alloc(), case)?;
    }
    Ok(())
}
