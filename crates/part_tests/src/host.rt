// What no clause says: that calls succeed with ample memory, and the steps of one host worked out by hand from the rules.

use crate::network::{ONE_HOST, build};
use pipe_base::{
    Announced, Body, Control, Fate, HostId, LAST_BARRIER, LAST_STAMP, LinkId, List, NoMemory,
    NodeId, Outcome, Packet, PacketKind, Service, SharedList, Step, Ts,
};
use pipe_host::Host;
use pipe_topo::{TopoFault, Topology};
use std::alloc::Global;
use std::process::Abort;

/// A packet of this sender, with this timestamp and both barriers alike.
fn packet(alloc: Global, kind: PacketKind, src: u16, ts: u64, barrier: u64) -> Packet {
    Packet {
        kind,
        src: HostId(src),
        dst: HostId(0),
        ts: Ts(ts),
        be: Ts(barrier),
        commit: Ts(barrier),
        body: Body::empty(alloc),
    }
}

/// A packet on link 1, with its sender, timestamp and barriers; a reading of the clock; a send to itself at a reading; a notice
/// of one failed host with its time; a dropped link.
#[derive(Clone, Copy)]
enum Call {
    Take(PacketKind, u16, u64, u64),
    Tick(u64),
    Send(Service, u64),
    Notice(u16, u64),
    Drop(u16),
}

/// How many messages a step logged, packets it put, links went down and control messages it put.
type Counts = (usize, usize, usize, usize);

/// The outcome, fate and counts of a step; the commit barrier of the first packet put; and what the host promises then.
struct Seen(Outcome, Option<Fate>, Counts, Option<u64>, u64);

/// A call with what is seen of its step.
struct Row(Call, Seen);

const OK: Outcome = Outcome::Ok;

const UNSENT: Outcome = Outcome::DestFailed { host: HostId(0) };

const DISCARDED: Option<Fate> = Some(Fate::Discarded { time: Ts(5) });

const LATE: Option<Fate> = Some(Fate::Late { barrier: Ts(31) });

const END: Outcome = Outcome::ClockEnd {
    next: Ts(LAST_BARRIER),
};

// The host takes whatever it is handed, up to the end of its clock.
static TO_THE_END: [Row; 6] = [
    Row(
        Call::Take(PacketKind::Plain, 7, LAST_STAMP, 0),
        Seen(OK, Some(Fate::Held), (0, 0, 0, 0), None, 0),
    ),
    Row(
        Call::Take(PacketKind::Beacon, 0, 0, LAST_BARRIER),
        Seen(OK, None, (1, 0, 0, 0), None, LAST_BARRIER),
    ),
    Row(
        Call::Send(Service::BestEffort, 5),
        Seen(END, None, (0, 0, 0, 0), None, LAST_BARRIER),
    ),
    Row(
        Call::Tick(6),
        Seen(OK, None, (0, 1, 0, 0), Some(LAST_BARRIER), LAST_BARRIER),
    ),
    // Its one in-link is silent for the patience; then what comes on it is ignored.
    Row(
        Call::Tick(1006),
        Seen(OK, None, (0, 1, 1, 1), Some(LAST_BARRIER), LAST_BARRIER),
    ),
    Row(
        Call::Take(PacketKind::Plain, 7, 3, 0),
        Seen(Outcome::Ignored, None, (0, 0, 0, 0), None, LAST_BARRIER),
    ),
];

// A reliable message to itself. The host promises no more than its stamp until it is acknowledged; a tick puts it again.
static SETTLES: [Row; 7] = [
    Row(
        Call::Send(Service::Reliable, 10),
        Seen(OK, None, (0, 1, 0, 0), Some(10), 10),
    ),
    Row(
        Call::Take(PacketKind::Prepare, 0, 10, 10),
        Seen(OK, Some(Fate::Held), (0, 1, 0, 0), Some(10), 10),
    ),
    Row(
        Call::Take(PacketKind::Prepare, 0, 10, 10),
        Seen(OK, Some(Fate::Repeat), (0, 1, 0, 0), Some(10), 10),
    ),
    Row(Call::Tick(20), Seen(OK, None, (0, 2, 0, 0), Some(10), 10)),
    Row(
        Call::Take(PacketKind::Ack, 0, 10, 10),
        Seen(OK, None, (0, 0, 0, 0), None, 20),
    ),
    Row(Call::Tick(21), Seen(OK, None, (0, 1, 0, 0), Some(21), 21)),
    Row(
        Call::Take(PacketKind::Beacon, 0, 0, 21),
        Seen(OK, None, (1, 0, 0, 0), None, 21),
    ),
];

// Of a host that is noted as failed, reliable messages from its time on are void; best effort is not touched.
static DISCARDS: [Row; 6] = [
    Row(
        Call::Take(PacketKind::Prepare, 7, 6, 0),
        Seen(OK, Some(Fate::Held), (0, 0, 0, 0), None, 0),
    ),
    Row(Call::Notice(7, 5), Seen(OK, None, (0, 0, 0, 0), None, 0)),
    Row(
        Call::Take(PacketKind::Prepare, 7, 5, 0),
        Seen(OK, DISCARDED, (0, 0, 0, 0), None, 0),
    ),
    Row(
        Call::Take(PacketKind::Plain, 7, 5, 0),
        Seen(OK, Some(Fate::Held), (0, 0, 0, 0), None, 0),
    ),
    Row(
        Call::Take(PacketKind::Prepare, 7, 4, 0),
        Seen(OK, Some(Fate::Held), (0, 0, 0, 0), None, 0),
    ),
    Row(
        Call::Take(PacketKind::Beacon, 0, 0, 10),
        Seen(OK, None, (2, 0, 0, 0), None, 6),
    ),
];

// What is taken back is not logged, whether it came before or comes later. Each recall is answered.
static TAKES_BACK: [Row; 10] = [
    Row(
        Call::Take(PacketKind::Prepare, 0, 30, 0),
        Seen(OK, Some(Fate::Held), (0, 1, 0, 0), Some(0), 0),
    ),
    Row(
        Call::Take(PacketKind::Recall, 0, 30, 0),
        Seen(OK, None, (0, 1, 0, 0), Some(0), 0),
    ),
    Row(
        Call::Take(PacketKind::Prepare, 0, 30, 0),
        Seen(OK, Some(Fate::Recalled), (0, 0, 0, 0), None, 0),
    ),
    Row(
        Call::Take(PacketKind::Recall, 0, 31, 0),
        Seen(OK, None, (0, 1, 0, 0), Some(0), 0),
    ),
    Row(
        Call::Take(PacketKind::Recall, 0, 31, 0),
        Seen(OK, None, (0, 1, 0, 0), Some(0), 0),
    ),
    Row(
        Call::Take(PacketKind::Prepare, 0, 31, 0),
        Seen(OK, Some(Fate::Recalled), (0, 0, 0, 0), None, 0),
    ),
    Row(
        Call::Take(PacketKind::Beacon, 0, 0, 31),
        Seen(OK, None, (0, 0, 0, 0), None, 0),
    ),
    Row(
        Call::Take(PacketKind::Prepare, 0, 30, 31),
        Seen(OK, LATE, (0, 0, 0, 0), None, 0),
    ),
    Row(
        Call::Take(PacketKind::Prepare, 0, 31, 31),
        Seen(OK, Some(Fate::Recalled), (0, 0, 0, 0), None, 0),
    ),
    Row(
        Call::Take(PacketKind::Beacon, 0, 0, 32),
        Seen(OK, None, (0, 0, 0, 0), None, 0),
    ),
];

// Its one receiver has failed, so a scattering is given up. The controller is told how many failed hosts and dropped links are
// known, and there is no beacon on a link that is dropped.
static GIVES_UP: [Row; 7] = [
    Row(
        Call::Send(Service::Reliable, 10),
        Seen(OK, None, (0, 1, 0, 0), Some(10), 10),
    ),
    Row(Call::Notice(0, 50), Seen(OK, None, (0, 0, 0, 0), None, 11)),
    Row(
        Call::Send(Service::Reliable, 12),
        Seen(UNSENT, None, (0, 0, 0, 0), None, 11),
    ),
    Row(Call::Tick(20), Seen(OK, None, (0, 1, 0, 1), Some(20), 20)),
    Row(
        Call::Take(PacketKind::RecallAck, 0, 10, 10),
        Seen(OK, None, (0, 0, 0, 0), None, 20),
    ),
    Row(Call::Drop(0), Seen(OK, None, (0, 0, 0, 0), None, 20)),
    Row(Call::Tick(30), Seen(OK, None, (0, 0, 0, 2), None, 30)),
];

fn send(
    rt: &impl Abort,
    alloc: Global,
    host: &mut Host,
    service: Service,
    now: u64,
    step: &mut Step,
) -> Result<(), NoMemory> {
    let mut dests = List::new(alloc);
    dests.push((HostId(0), Body::empty(alloc)))?;
    assert!(rt; dests.len() == 1);
    host.send(service, Ts(now), dests, step)
}

fn note(alloc: Global, failed: u16, time: u64) -> Result<Control, NoMemory> {
    let mut list = List::new(alloc);
    list.push(Announced {
        host: HostId(failed),
        time: Ts(time),
    })?;
    let list = SharedList::from_list(list)?;
    Ok(Control::Notice { list })
}

fn drop_link(alloc: Global, link: u16) -> Result<Control, NoMemory> {
    let mut links = List::new(alloc);
    links.push(LinkId(link))?;
    let links = SharedList::from_list(links)?;
    Ok(Control::DropLinks { links })
}

fn control(
    rt: &impl Abort,
    topology: &Topology,
    host: &mut Host,
    control: Control,
    step: &mut Step,
) -> Result<(), NoMemory> {
    assert!(rt; host.host().0 < topology.nodes());
    host.control(topology, control, step)
}

fn make(
    rt: &impl Abort,
    alloc: Global,
    topology: &Topology,
    host: &mut Host,
    call: Call,
    step: &mut Step,
) -> Result<(), NoMemory> {
    match call {
        Call::Take(kind, src, ts, barrier) => {
            host.take(LinkId(1), packet(alloc, kind, src, ts, barrier), step)
        }
        Call::Tick(now) => host.tick(Ts(now), step),
        Call::Send(service, now) => send(rt, alloc, host, service, now, step),
        Call::Notice(failed, time) => {
            control(rt, topology, host, note(alloc, failed, time)?, step)
        }
        Call::Drop(link) => control(rt, topology, host, drop_link(alloc, link)?, step),
    }
}

fn has_counts(step: &Step, counts: Counts) -> bool {
    let put = (step.put.len(), step.control.len());
    step.logged.len() == counts.0 && step.downed.len() == counts.2 && put == (counts.1, counts.3)
}

fn has_commit(step: &Step, commit: Option<u64>) -> bool {
    match step.put.get(0) {
        Some((_, packet)) => commit == Some(packet.commit.0),
        None => commit.is_none(),
    }
}

fn make_all(
    rt: &impl Abort,
    alloc: Global,
    topology: &Topology,
    host: &mut Host,
    rows: &[Row],
) -> Result<(), NoMemory> {
    let mut step = Step::new(alloc);
    for Row(call, Seen(outcome, fate, counts, commit, promise)) in rows {
        make(rt, alloc, topology, host, *call, &mut step)?;
        assert!(rt; step.outcome == *outcome && step.fate == *fate);
        assert!(rt; has_counts(&step, *counts) && has_commit(&step, *commit));
        assert!(rt; host.promise().0 == *promise);
        *host = host.try_clone()?;
    }
    Ok(())
}

// In the end nothing is held or unsettled.
fn is_at_rest(host: &Host, next: u64) -> bool {
    let held = [
        host.held(Service::BestEffort).len(),
        host.held(Service::Reliable).len(),
    ];
    held == [0, 0] && host.sender().unsettled() == 0 && host.next().0 == next
}

fn is_copied(host: &Host, next: u64) -> Result<bool, NoMemory> {
    let copy = host.try_clone()?;
    Ok(is_at_rest(&copy, next))
}

fn fresh(rt: &impl Abort, alloc: Global, topology: &Topology) -> Result<Host, NoMemory> {
    assert!(rt; topology.nodes() == 3);
    assert!(rt; topology.is_host(NodeId(0)));
    Host::new(alloc, topology, HostId(0))
}

fn play(rt: &impl Abort, alloc: Global, rows: &[Row], next: u64) -> Result<(), TopoFault> {
    let topology = build(rt, alloc, &ONE_HOST)?;
    let mut host = fresh(rt, alloc, &topology)?;
    make_all(rt, alloc, &topology, &mut host, rows)?;
    assert!(rt; is_copied(&host, next)?);
    Ok(())
}

#[test]
fn steps_as_worked_out_by_hand(rt: HostRuntime) -> Result<(), TopoFault> {
    play(&rt, rt.alloc(), &TO_THE_END, LAST_BARRIER)?;
    play(&rt, rt.alloc(), &SETTLES, 21)?;
    play(&rt, rt.alloc(), &DISCARDS, 6)?;
    play(&rt, rt.alloc(), &TAKES_BACK, 0)?;
    play(&rt, rt.alloc(), &GIVES_UP, 30)
}
