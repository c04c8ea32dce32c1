// What no clause says: that printing succeeds where there is memory, and the lines of a trace as the format gives them, also
// those of what runs cannot bring about yet. Steps are filled in place, so that a function owns little.

use pipe_base::{
    Addressed, Announced, Body, Control, DestList, Entry, Fate, HostId, KeptStep, Key, LinkId,
    List, NoMemory, NodeId, Outcome, Packet, PacketKind, Service, SharedList, Step, To, Ts,
};
use pipe_model::{Event, Record, Took, Trace};
use pipe_text_plan::{parts_of, read_plan};
use pipe_text_trace::{print_event, print_trace};
use std::alloc::Global;

fn happened(event: Event, took: Took, outcome: Outcome) -> Record {
    Record {
        event,
        took,
        step: KeptStep::quiet(outcome),
    }
}

fn did(event: Event, step: KeptStep) -> Record {
    Record {
        event,
        took: Took::Nothing,
        step,
    }
}

fn packet(alloc: Global, kind: PacketKind, body: &[u8]) -> Result<Packet, NoMemory> {
    let Ok(body) = Body::new(alloc, body) else {
        return Err(NoMemory);
    };
    Ok(Packet {
        kind,
        src: HostId(0),
        dst: HostId(1),
        ts: Ts(10),
        be: Ts(11),
        commit: Ts(12),
        body,
    })
}

fn put(alloc: Global, step: &mut Step, link: u16, kind: PacketKind) -> Result<(), NoMemory> {
    let packet = packet(alloc, kind, b"")?;
    step.put.push((LinkId(link), packet))
}

fn tell(step: &mut Step, to: To, control: Control) -> Result<(), NoMemory> {
    step.control.push(Addressed { to, control })
}

fn log(alloc: Global, step: &mut Step, service: Service, body: &[u8]) -> Result<(), NoMemory> {
    let Ok(body) = Body::new(alloc, body) else {
        return Err(NoMemory);
    };
    let key = Key {
        ts: Ts(10),
        src: HostId(0),
    };
    step.logged.push((service, Entry { key, body }))
}

type Receiver = (u16, &'static [u8]);

fn dests_of(alloc: Global, receivers: &[Receiver]) -> Result<DestList, NoMemory> {
    let mut dests = List::new(alloc);
    for (host, body) in receivers {
        let Ok(body) = Body::new(alloc, body) else {
            return Err(NoMemory);
        };
        dests.push((HostId(*host), body))?;
    }
    Ok(dests)
}

fn fill_send(alloc: Global, step: &mut Step) -> Result<(), NoMemory> {
    step.stamped = Some(Ts(10));
    step.unrouted = 2;
    put(alloc, step, 0, PacketKind::Plain)
}

// A send that is refused, and one that is stamped.
fn add_sends(alloc: Global, trace: &mut Trace) -> Result<(), NoMemory> {
    let host = HostId(0);
    let dests = dests_of(alloc, &[(1, b"hi"), (0, b"")])?;
    let event = Event::Send {
        host,
        service: Service::Reliable,
        now: Ts(5),
        dests,
    };
    let outcome = Outcome::DestFailed { host: HostId(1) };
    trace.push(happened(event, Took::Nothing, outcome))?;
    let mut step = Step::new(alloc);
    fill_send(alloc, &mut step)?;
    let step = step.keep(alloc)?;
    let dests = dests_of(alloc, &[(1, b"")])?;
    let event = Event::Send {
        host,
        service: Service::BestEffort,
        now: Ts(10),
        dests,
    };
    trace.push(did(event, step))
}

fn fill_tick(alloc: Global, step: &mut Step) -> Result<(), NoMemory> {
    step.downed.push((LinkId(2), Ts(9)))?;
    step.downed.push((LinkId(0), Ts(8)))?;
    put(alloc, step, 4, PacketKind::Beacon)?;
    let control = Control::Down {
        link: LinkId(2),
        value: Ts(9),
    };
    tell(step, To::Controller, control)
}

// A tick with all that a clock may bring about, and one of another outcome.
fn add_ticks(alloc: Global, trace: &mut Trace) -> Result<(), NoMemory> {
    let now = Ts(0);
    let mut step = Step::new(alloc);
    fill_tick(alloc, &mut step)?;
    let step = step.keep(alloc)?;
    let node = NodeId(2);
    trace.push(did(Event::Tick { node, now }, step))?;
    let node = NodeId(0);
    let window = Outcome::Window { count: 16 };
    trace.push(happened(Event::Tick { node, now }, Took::Nothing, window))
}

/// A packet that is taken, whether a copy stays, and its fate.
type Taking = (PacketKind, &'static [u8], bool, Option<Fate>);

// Packets of each kind, with each fate.
static TAKES: [Taking; 8] = [
    (PacketKind::Prepare, b"\x00\xff", true, Some(Fate::Held)),
    (PacketKind::Plain, b"hi", false, Some(Fate::Repeat)),
    (
        PacketKind::Plain,
        b"",
        false,
        Some(Fate::Late { barrier: Ts(15) }),
    ),
    (
        PacketKind::Prepare,
        b"",
        false,
        Some(Fate::Discarded { time: Ts(7) }),
    ),
    (PacketKind::Prepare, b"", false, Some(Fate::Recalled)),
    (PacketKind::Ack, b"", false, None),
    (PacketKind::Recall, b"", false, None),
    (PacketKind::RecallAck, b"", false, None),
];

// What carries a message back logs two.
fn fill_take(alloc: Global, step: &mut Step, taking: Taking) -> Result<(), NoMemory> {
    step.fate = taking.3;
    if taking.0 != PacketKind::RecallAck {
        return Ok(());
    }
    log(alloc, step, Service::BestEffort, b"hi")?;
    log(alloc, step, Service::Reliable, b"")
}

fn taken(alloc: Global, taking: Taking) -> Result<Record, NoMemory> {
    let link = LinkId(4);
    let mut step = Step::new(alloc);
    fill_take(alloc, &mut step, taking)?;
    let step = step.keep(alloc)?;
    let packet = packet(alloc, taking.0, taking.1)?;
    let event = Event::Take {
        link,
        place: 3,
        keep: taking.2,
    };
    Ok(Record {
        event,
        took: Took::Link { link, packet },
        step,
    })
}

fn add_takes(alloc: Global, trace: &mut Trace) -> Result<(), NoMemory> {
    for taking in &TAKES {
        trace.push(taken(alloc, *taking)?)?;
    }
    Ok(())
}

fn told(to: To, control: Control, keep: bool) -> Record {
    let event = Event::ControlTake {
        place: 4294967295,
        keep,
    };
    let addressed = Addressed { to, control };
    happened(event, Took::Message { addressed }, Outcome::Ok)
}

const FAILED: Announced = Announced {
    host: HostId(1),
    time: Ts(281474976710655),
};

fn notice(alloc: Global) -> Result<Control, NoMemory> {
    let mut list = List::new(alloc);
    list.push(FAILED)?;
    list.push(FAILED)?;
    let list = SharedList::from_list(list)?;
    Ok(Control::Notice { list })
}

fn drop_links(alloc: Global) -> Result<Control, NoMemory> {
    let mut links = List::new(alloc);
    links.push(LinkId(3))?;
    links.push(LinkId(2))?;
    let links = SharedList::from_list(links)?;
    Ok(Control::DropLinks { links })
}

fn fill_decision(alloc: Global, step: &mut Step) -> Result<(), NoMemory> {
    step.noted.push(FAILED)?;
    step.dropped.push(LinkId(3))?;
    tell(step, To::Node(NodeId(0)), notice(alloc)?)?;
    tell(step, To::Node(NodeId(2)), drop_links(alloc)?)
}

// Control messages of each kind that is taken, and what a decision brings about.
fn add_controls(alloc: Global, trace: &mut Trace) -> Result<(), NoMemory> {
    let host = HostId(0);
    let node = NodeId(3);
    let count = 2;
    trace.push(told(To::Node(node), Control::Freeze { link: LinkId(2) }, true))?;
    trace.push(told(To::Controller, Control::Done { host, count }, false))?;
    trace.push(told(To::Controller, Control::Gone { node, count }, false))?;
    let mut step = Step::new(alloc);
    fill_decision(alloc, &mut step)?;
    trace.push(did(Event::Decide, step.keep(alloc)?))
}

// What is lost, stops or is cut, with the outcomes that are left.
fn add_losses(trace: &mut Trace) -> Result<(), NoMemory> {
    let link = LinkId(1);
    let node = NodeId(3);
    let next = Ts(281474976710655);
    let lost = Event::Lose { link, place: 0 };
    trace.push(happened(lost, Took::Nothing, Outcome::NoItem))?;
    let lost = Event::ControlLose { place: 1 };
    trace.push(happened(lost, Took::Nothing, Outcome::Ignored))?;
    let crash = Event::Crash { node };
    trace.push(happened(crash, Took::Nothing, Outcome::Crashed))?;
    let cut = Event::Cut { link };
    trace.push(happened(cut, Took::Nothing, Outcome::ClockEnd { next }))
}

fn add_all(alloc: Global, trace: &mut Trace) -> Result<(), NoMemory> {
    add_sends(alloc, trace)?;
    add_ticks(alloc, trace)?;
    add_takes(alloc, trace)?;
    add_controls(alloc, trace)?;
    add_losses(trace)
}

const TEXT: &str = "trace 20\n\
event 0 send h0 reliable 5 h1=6869 h0=\noutcome destfailed h1\n\
event 1 send h0 best 10 h1=\noutcome ok\nstamp 10\nput 0 plain h0 h1 10 11 12 -\nunrouted 2\n\
event 2 tick s0.up 0\noutcome ok\ndown 2 9\ndown 0 8\nput 4 beacon 11 12\ncontrol to controller down 2 9\n\
event 3 tick h0 0\noutcome window 16\n\
event 4 take 4 3 keep\noutcome ok\ntook 4 prepare h0 h1 10 11 12 00ff\nfate held\n\
event 5 take 4 3\noutcome ok\ntook 4 plain h0 h1 10 11 12 6869\nfate repeat\n\
event 6 take 4 3\noutcome ok\ntook 4 plain h0 h1 10 11 12 -\nfate late 15\n\
event 7 take 4 3\noutcome ok\ntook 4 prepare h0 h1 10 11 12 -\nfate discarded 7\n\
event 8 take 4 3\noutcome ok\ntook 4 prepare h0 h1 10 11 12 -\nfate recalled\n\
event 9 take 4 3\noutcome ok\ntook 4 ack h0 h1 10 11 12\n\
event 10 take 4 3\noutcome ok\ntook 4 recall h0 h1 10 11 12\n\
event 11 take 4 3\noutcome ok\ntook 4 recallack h0 h1 10 11 12\nlogged best 10 h0 6869\nlogged reliable 10 h0 -\n\
event 12 control take 4294967295 keep\noutcome ok\ntookcontrol to s0.down freeze 2\n\
event 13 control take 4294967295\noutcome ok\ntookcontrol to controller done h0 2\n\
event 14 control take 4294967295\noutcome ok\ntookcontrol to controller gone s0.down 2\n\
event 15 decide\noutcome ok\nnoted h1 281474976710655\ndropped 3\n\
control to h0 notice 2 h1:281474976710655 h1:281474976710655\ncontrol to s0.up drop 2 3 2\n\
event 16 lose 1 0\noutcome noitem\n\
event 17 control lose 1\noutcome ignored\n\
event 18 crash s0.down\noutcome crashed\n\
event 19 cut 1\noutcome clockend 281474976710655\n\
end\n";

// The names are those of a star of two hosts.
fn is_printed(alloc: Global, trace: &Trace) -> Result<bool, NoMemory> {
    let Some(parts) = parts_of(b"star 2\n") else {
        return Ok(false);
    };
    let Ok(star) = read_plan(alloc, &parts) else {
        return Ok(false);
    };
    let text = print_trace(alloc, &star.names, trace)?;
    let crash = Event::Crash { node: NodeId(2) };
    let alone = print_event(alloc, &star.names, &crash)?;
    Ok(text.as_slice() == TEXT.as_bytes() && alone.as_slice() == b"crash s0.up\n".as_slice())
}

#[test]
fn prints_each_kind_of_line(rt: HostRuntime) -> Result<(), NoMemory> {
    let mut trace = List::new(rt.alloc());
    add_all(rt.alloc(), &mut trace)?;
    assert!(rt; is_printed(rt.alloc(), &trace)?);
    Ok(())
}
