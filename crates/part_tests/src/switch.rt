// What no clause says: that calls succeed with ample memory, and the steps of one half worked out by hand from the rules.

use crate::network::{TWO_HOSTS, build};
use pipe_base::{
    Body, Control, HostId, LinkId, List, NoMemory, NodeId, Packet, PacketKind, SharedList, Step, Ts,
};
use pipe_switch::Half;
use pipe_topo::{TopoFault, Topology};
use std::alloc::Global;
use std::process::Abort;

/// A packet from h0 to h1 with these barriers.
fn packet(alloc: Global, kind: PacketKind, be: u64, commit: u64) -> Packet {
    Packet {
        kind,
        src: HostId(0),
        dst: HostId(1),
        ts: Ts(10),
        be: Ts(be),
        commit: Ts(commit),
        body: Body::empty(alloc),
    }
}

/// A packet that comes in on a link, with its two barriers; a reading of the clock; a freeze of a link; a dropped link.
#[derive(Clone, Copy)]
enum Call {
    Take(u16, PacketKind, u64, u64),
    Tick(u64),
    Freeze(u16),
    Drop(u16),
}

type Row = (Call, Told);

/// The links that go down with their frozen values, and the two barriers of a packet that is put on link 4.
type Told = (&'static [(u16, u64)], Option<(u64, u64)>);

// The up half of a star has the links 0 and 2 from the hosts, and puts on its loop, link 4.
static CALLS: [Row; 6] = [
    (
        Call::Take(0, PacketKind::Plain, 10, 11),
        (&[], Some((0, 0))),
    ),
    (Call::Take(2, PacketKind::Beacon, 15, 15), (&[], None)),
    (Call::Tick(50), (&[], Some((10, 11)))),
    // Both links are silent for the patience. The best-effort barrier goes on past the first, the commit barrier does not.
    (Call::Tick(150), (&[(0, 11), (2, 15)], Some((15, 11)))),
    // What comes on a link that is down is ignored.
    (Call::Take(2, PacketKind::Plain, 20, 20), (&[], None)),
    (Call::Tick(151), (&[], Some((15, 11)))),
];

// A link that is frozen goes down with its commit register, and holds the commit barrier back until it is dropped.
static FROZEN: [Row; 5] = [
    (Call::Take(2, PacketKind::Beacon, 15, 15), (&[], None)),
    (Call::Freeze(0), (&[(0, 0)], None)),
    (Call::Tick(20), (&[], Some((15, 0)))),
    (Call::Drop(0), (&[], None)),
    (Call::Tick(30), (&[], Some((15, 15)))),
];

fn dropping(alloc: Global, link: u16) -> Result<Control, NoMemory> {
    let mut links = List::new(alloc);
    links.push(LinkId(link))?;
    let links = SharedList::from_list(links)?;
    Ok(Control::DropLinks { links })
}

fn make(
    rt: &impl Abort,
    alloc: Global,
    topology: &Topology,
    half: &mut Half,
    call: Call,
    step: &mut Step,
) -> Result<(), NoMemory> {
    match call {
        Call::Take(link, kind, be, commit) => {
            half.take(LinkId(link), packet(alloc, kind, be, commit), step)
        }
        Call::Tick(now) => half.tick(Ts(now), step),
        Call::Freeze(link) => {
            let freeze = Control::Freeze { link: LinkId(link) };
            control(rt, topology, half, freeze, step)
        }
        Call::Drop(link) => control(rt, topology, half, dropping(alloc, link)?, step),
    }
}

fn control(
    rt: &impl Abort,
    topology: &Topology,
    half: &mut Half,
    control: Control,
    step: &mut Step,
) -> Result<(), NoMemory> {
    assert!(rt; half.node().0 < topology.nodes());
    half.control(topology, control, step)
}

fn are_down(rt: &impl Abort, downed: &[(LinkId, Ts)], wanted: &[(u16, u64)]) {
    assert!(rt; downed.len() == wanted.len());
    for ((link, value), (number, frozen)) in downed.iter().zip(wanted) {
        assert!(rt; link.0 == *number && value.0 == *frozen);
    }
}

fn is_put(put: &[(LinkId, Packet)], wanted: Option<(u64, u64)>) -> bool {
    match put {
        [] => wanted.is_none(),
        [(link, packet)] => link.0 == 4 && wanted == Some((packet.be.0, packet.commit.0)),
        _ => false,
    }
}

// Each call is made on a copy of the half.
fn make_all(
    rt: &impl Abort,
    alloc: Global,
    topology: &Topology,
    half: &mut Half,
    rows: &[Row],
) -> Result<(), NoMemory> {
    let mut step = Step::new(alloc);
    for (call, (downed, put)) in rows {
        *half = half.try_clone()?;
        make(rt, alloc, topology, half, *call, &mut step)?;
        are_down(rt, step.downed.as_slice(), downed);
        assert!(rt; is_put(step.put.as_slice(), *put));
    }
    Ok(())
}

fn play(rt: &impl Abort, alloc: Global, rows: &[Row]) -> Result<(), TopoFault> {
    let topology = build(rt, alloc, &TWO_HOSTS)?;
    assert!(rt; topology.nodes() == 4);
    assert!(rt; topology.is_half(NodeId(2)));
    let mut half = Half::new(alloc, &topology, NodeId(2))?;
    Ok(make_all(rt, alloc, &topology, &mut half, rows)?)
}

#[test]
fn passes_on_with_its_own_barriers(rt: HostRuntime) -> Result<(), TopoFault> {
    play(&rt, rt.alloc(), &CALLS)?;
    play(&rt, rt.alloc(), &FROZEN)
}
