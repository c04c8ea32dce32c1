// What no clause says: that the calls which take memory succeed with ample memory.

use pipe_base::*;
use std::alloc::{AllocError, Global};

// Lengths of bodies, and whether they are too long.
static LENGTHS: [(usize, bool); 3] = [(0, false), (1024, false), (1025, true)];

fn is_body(alloc: Global, len: usize, too_long: bool) -> Result<bool, AllocError> {
    let bytes = vec![in alloc; 7u8; len]?;
    match Body::new(alloc, &bytes) {
        Ok(body) => Ok(!too_long && body.bytes() == bytes.as_slice()),
        Err(fault) => Ok(too_long && fault == BodyFault::TooLong { len }),
    }
}

#[test]
fn bodies_have_at_most_1024_bytes(rt: HostRuntime) -> Result<(), AllocError> {
    for (len, too_long) in &LENGTHS {
        assert!(rt; is_body(rt.alloc(), *len, *too_long)?, "{len}");
    }
    Ok(())
}

fn dropping(alloc: Global) -> Result<Control, NoMemory> {
    let mut links = List::new(alloc);
    links.push(LinkId(7))?;
    let links = SharedList::from_list(links)?;
    Ok(Control::DropLinks {
        links: links.try_clone()?,
    })
}

fn packet(alloc: Global) -> Packet {
    Packet {
        kind: PacketKind::Plain,
        src: HostId(1),
        dst: HostId(2),
        ts: Ts(10),
        be: Ts(11),
        commit: Ts(12),
        body: Body::empty(alloc),
    }
}

fn fill(alloc: Global, step: &mut Step) -> Result<(), NoMemory> {
    step.put.push((LinkId(3), packet(alloc)))?;
    step.control.push(Addressed {
        to: To::Controller,
        control: dropping(alloc)?,
    })?;
    step.noted.push(Announced {
        host: HostId(4),
        time: Ts(5),
    })?;
    step.downed.push((LinkId(8), Ts(9)))?;
    step.logged.push((Service::Reliable, entry(alloc)))?;
    step.dropped.push_from(&mut LinkId(6), LinkId(0))
}

fn entry(alloc: Global) -> Entry {
    Entry {
        key: Key {
            ts: Ts(10),
            src: HostId(1),
        },
        body: Body::empty(alloc),
    }
}

fn is_filled(step: &Step) -> bool {
    step.put.len() == 1
        && step.control.len() == 1
        && step.noted.len() == 1
        && step.downed.len() == 1
        && step.logged.len() == 1
        && matches!(step.dropped.get(0), Some(LinkId(6)))
        && step.dropped.get(1).is_none()
}

#[test]
fn steps_are_copied(rt: HostRuntime) -> Result<(), NoMemory> {
    let mut step = Step::new(rt.alloc());
    fill(rt.alloc(), &mut step)?;
    assert!(rt; is_filled(&step.try_clone()?));
    Ok(())
}

/// Whether the copy of the step, kept in its short form, has so many packets and entries.
fn has_copy(alloc: Global, step: Step, counts: (usize, usize)) -> Result<bool, NoMemory> {
    let copy = step.keep(alloc)?.try_clone()?;
    Ok((copy.put().len(), copy.logged().len()) == counts)
}

fn steps_of_each_form_are_copied(alloc: Global) -> Result<bool, NoMemory> {
    let mut whole = Step::new(alloc);
    fill(alloc, &mut whole)?;
    let mut puts = Step::new(alloc);
    puts.put.push((LinkId(3), packet(alloc)))?;
    puts.put.push((LinkId(5), packet(alloc)))?;
    let mut logs = Step::new(alloc);
    logs.logged.push((Service::BestEffort, entry(alloc)))?;
    Ok(
        has_copy(alloc, whole, (1, 1))?
            && has_copy(alloc, puts, (2, 0))?
            && has_copy(alloc, logs, (0, 1))?,
    )
}

#[test]
fn kept_steps_are_copied(rt: HostRuntime) -> Result<(), NoMemory> {
    assert!(rt; steps_of_each_form_are_copied(rt.alloc())?);
    Ok(())
}
