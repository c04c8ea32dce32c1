// What no clause says: that calls succeed with ample memory, and the life of scatterings worked out by hand from the rules.
ghost use Rattle.std.specs.Prelude.{◌≡◌, length, IfOk};

use pipe_base::{
    Announced, Body, DestList, HostId, LinkId, List, NoMemory, Noted, Router, Step, Ts,
};
use pipe_relsend::{AckStep, FailStep, Preparing, RecallStep, Recalling, Sender, Window};
use std::alloc::Global;
use std::process::Abort;

/// A router that knows no way, so that a step counts what is owed.
struct NoWay;

impl Router for NoWay {
    ghost use Rattle.std.specs.Prelude.{◌≡◌, []};
    ghost use Rattle.pipe_base.specs.Ways.{picked};

    ghost links = { λ _. [] };

    fn pick(&self, _src: HostId, _dst: HostId) -> Option<LinkId>
        ensures { result ≡ picked [] _src.0 _dst.0 }
    {
        None
    }
}

/// A scattering to two hosts under a timestamp, an acknowledgement of a timestamp by a host, that so many of the failed hosts
/// are noted, or that a host took back what has a timestamp.
#[derive(Clone, Copy)]
enum Call {
    Begin(u64, u16, u16),
    Ack(u64, u16),
    Note(usize),
    RecallAck(u64, u16),
}

// The hosts that fail, in this order.
static FAILED: [u16; 3] = [2, 3, 1];

fn first_failed(alloc: Global, count: usize) -> Result<Noted, NoMemory> {
    let mut noted = Noted::new(alloc);
    for host in FAILED.iter().take(count) {
        noted.push(Announced {
            host: HostId(*host),
            time: Ts(50),
        })?;
    }
    Ok(noted)
}

fn two(alloc: Global, first: u16, second: u16) -> Result<DestList, NoMemory>
    ensures { IfOk result (λ dests. length dests ≡ 2) }
{
    let mut dests = List::new(alloc);
    dests.push((HostId(first), Body::empty(alloc)))?;
    dests.push((HostId(second), Body::empty(alloc)))?;
    Ok(dests)
}

/// Whether it is begun; of another call, whether it is made.
fn make(alloc: Global, sender: &mut Sender, call: Call) -> Result<bool, NoMemory> {
    match call {
        Call::Begin(ts, first, second) => {
            let dests = two(alloc, first, second)?;
            Ok(sender.begin(Ts(ts), dests).is_ok())
        }
        Call::Ack(ts, host) => {
            sender.ack(Ts(ts), HostId(host));
            Ok(true)
        }
        Call::Note(count) => {
            sender.note(&first_failed(alloc, count)?);
            Ok(true)
        }
        Call::RecallAck(ts, host) => {
            sender.recall_ack(Ts(ts), HostId(host));
            Ok(true)
        }
    }
}

const NEXT: Ts = Ts(99);

// Each call with the scatterings that are not settled after it, the promise, how many packets are owed again, and whether some
// scattering is being taken back.
type Played = (Call, u16, u64, u32, bool);

static CALLS: [Played; 10] = [
    (Call::Ack(10, 1), 0, 99, 0, false),
    (Call::Begin(10, 1, 2), 1, 10, 2, false),
    (Call::Begin(20, 2, 3), 2, 10, 4, false),
    (Call::Ack(10, 3), 2, 10, 4, false),
    (Call::Ack(10, 2), 2, 10, 3, false),
    (Call::Ack(10, 2), 2, 10, 3, false),
    (Call::Ack(20, 3), 2, 10, 2, false),
    (Call::Ack(10, 1), 1, 20, 1, false),
    (Call::Ack(10, 1), 1, 20, 1, false),
    (Call::Ack(20, 2), 0, 99, 0, false),
];

// Host 2 fails: it has acknowledged the first scattering, but not the second, which its other receiver takes back although it
// had acknowledged it. Then host 3 fails, and the third is taken back, and last host 1, whom nobody waits for any more. A
// scattering to failed hosts is taken back when hosts are noted again.
static RECALLS: [Played; 15] = [
    (Call::Begin(10, 1, 2), 1, 10, 2, false),
    (Call::Begin(20, 2, 3), 2, 10, 4, false),
    (Call::Begin(30, 1, 3), 3, 10, 6, false),
    (Call::Ack(10, 2), 3, 10, 5, false),
    (Call::Ack(20, 3), 3, 10, 4, false),
    (Call::Note(1), 3, 10, 4, true),
    (Call::Ack(20, 2), 3, 10, 4, true),
    (Call::RecallAck(30, 3), 3, 10, 4, true),
    (Call::Ack(10, 1), 2, 20, 3, true),
    (Call::RecallAck(20, 3), 1, 30, 2, false),
    (Call::Note(2), 1, 30, 1, true),
    (Call::Note(2), 1, 30, 1, true),
    (Call::Note(3), 0, 99, 0, false),
    (Call::Begin(40, 1, 2), 1, 40, 2, false),
    (Call::Note(3), 0, 99, 0, false),
];

fn owed(alloc: Global, sender: &Sender) -> Result<u32, NoMemory> {
    let mut step = Step::new(alloc);
    sender.resends(HostId(0), NEXT, &NoWay, &mut step)?;
    Ok(step.unrouted)
}

fn make_all(
    rt: &impl Abort,
    alloc: Global,
    sender: &mut Sender,
    calls: &[Played],
) -> Result<(), NoMemory> {
    for (call, unsettled, promise, count, recalling) in calls {
        assert!(rt; make(alloc, sender, *call)?);
        assert!(rt; sender.unsettled() == *unsettled && sender.promise(NEXT).0 == *promise);
        assert!(rt; owed(alloc, sender)? == *count && sender.is_recalling() == *recalling);
        *sender = sender.try_clone()?;
    }
    Ok(())
}

fn is_refused(alloc: Global, sender: &mut Sender) -> Result<bool, NoMemory> {
    let dests = two(alloc, 1, 2)?;
    match sender.begin(Ts(16), dests) {
        Ok(()) => Ok(false),
        Err(Window { dests }) => Ok(dests.len() == 2),
    }
}

// Sixteen are accepted, the next one comes back; one that is taken back makes room.
fn fill(rt: &impl Abort, alloc: Global, sender: &mut Sender) -> Result<(), NoMemory> {
    for ts in 0..16 {
        assert!(rt; make(alloc, sender, Call::Begin(ts, 1, 2))?);
    }
    assert!(rt; sender.unsettled() == 16 && is_refused(alloc, sender)?);
    sender.unbegin();
    assert!(rt; sender.unsettled() == 15 && sender.promise(NEXT).0 == 0);
    Ok(())
}

#[test]
fn settles_what_all_receivers_acknowledged(rt: HostRuntime) -> Result<(), NoMemory> {
    let mut sender = Sender::new(rt.alloc())?;
    make_all(&rt, rt.alloc(), &mut sender, &CALLS)?;
    fill(&rt, rt.alloc(), &mut sender.try_clone()?)
}

#[test]
fn takes_back_what_a_failed_receiver_did_not_acknowledge(rt: HostRuntime) -> Result<(), NoMemory> {
    let mut sender = Sender::new(rt.alloc())?;
    make_all(&rt, rt.alloc(), &mut sender, &RECALLS)
}

/// Whether the first of two receivers and the second have acknowledged it.
fn acked(preparing: &Preparing) -> (bool, bool) {
    (preparing.acked(HostId(4)), preparing.acked(HostId(5)))
}

/// Spends a scattering for which this is the last acknowledgement.
fn finish(rt: &impl Abort, preparing: Preparing, last: HostId) {
    match preparing.ack(last) {
        AckStep::Still(_unsettled) => rt.abort(),
        AckStep::Ready(prepared) => prepared.spend(),
    }
}

#[test]
fn is_prepared_by_its_last_receiver(rt: HostRuntime) -> Result<(), NoMemory> {
    let preparing = Preparing::start(Ts(7), two(rt.alloc(), 4, 5)?);
    let before = acked(&preparing);
    match preparing.ack(HostId(5)) {
        AckStep::Still(preparing) => {
            let after = acked(&preparing);
            finish(&rt, preparing, HostId(4));
            assert!(rt; before == (false, false) && after == (false, true));
        }
        AckStep::Ready(_prepared) => rt.abort(),
    }
    Ok(())
}

/// Spends a recalled scattering for which the first of two receivers failed, and the second one has still to answer.
fn take_back(rt: &impl Abort, recalling: Recalling) {
    let waits = (recalling.awaits(HostId(2)), recalling.awaits(HostId(5)));
    match recalling.ack(HostId(5)) {
        RecallStep::Still(_recalling) => rt.abort(),
        RecallStep::Gone(aborted) => aborted.spend(),
    }
    assert!(rt; waits == (false, true));
}

#[test]
fn is_aborted_by_its_last_receiver(rt: HostRuntime) -> Result<(), NoMemory> {
    let noted = first_failed(rt.alloc(), 1)?;
    let preparing = Preparing::start(Ts(7), two(rt.alloc(), 2, 5)?);
    match preparing.failed(&noted) {
        FailStep::Recall(recalling) => take_back(&rt, recalling),
        FailStep::Still(_unsettled) => rt.abort(),
        FailStep::Gone(_aborted) => rt.abort(),
    }
    Ok(())
}
