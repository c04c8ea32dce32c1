// What a record moves: packets and control messages are put, and what its event takes, loses or cuts is gone.
ghost use Rattle.std.specs.Prelude.{◌≡◌, ℕ, [], ◌∷◌, ◌-◌, ◌^◌, ◌<◌, ◌≤◌, OnOk, OnErr, length, take};
ghost use Rattle.pipe_base.specs.declared.packet.Packet.{Packet as APacket};
ghost use Rattle.pipe_base.specs.Limits.{most_items};
ghost use Rattle.pipe_model.specs.Acting.{is_idle};
ghost use Rattle.pipe_model.specs.Waiting.{is_ok};
ghost use Rattle.pipe_net.specs.Waits.{Waits, on_link, waiting, with_packet, without_packet};
ghost use Rattle.pipe_world.specs.Queues.{AreKnown, IsInPlace, IsThere, left_by, with_messages, with_puts, without_last, without_message};

use pipe_base::{Addressed, LinkId, NoMemory, Outcome, Packet};
use pipe_model::{Event, is_idle};
use pipe_net::Queues;

/// Puts a copy of each packet at the end of its link's list, or none.
pub fn put_all(queues: &mut Queues, puts: &[(LinkId, Packet)]) -> Result<(), NoMemory>
    requires known { AreKnown (length queues.old.lines) puts.now }
    requires room { (link : ℕ) → length (waiting link queues.old) ≤ most_items }
    requires few { length puts.now ≤ most_items }
    ensures ok { OnOk result (queues.new ≡ with_puts puts.now queues.old) }
    ensures err { OnErr result (queues.new ≡ queues.old) }
{
    let count = put_some(queues, puts);
    if count == puts.len() {
        return Ok(());
    }
    take_back(queues, &puts[..count]);
    Err(NoMemory)
}

/// Puts as many as there is memory for, and says how many.
fn put_some(queues: &mut Queues, puts: &[(LinkId, Packet)]) -> usize
    requires known { AreKnown (length queues.old.lines) puts.now }
    requires room { (link : ℕ) → length (waiting link queues.old) ≤ most_items }
    requires few { length puts.now ≤ most_items }
    ensures count { result ≤ length puts.now }
    ensures put { queues.new ≡ with_puts (take result puts.now) queues.old }
{
    'puts: for (at, put) in puts.iter().enumerate() {
        if put_one(queues, put).is_err() {
            return at;
        }
    }
    puts.len()
}

fn put_one(queues: &mut Queues, put: &(LinkId, Packet)) -> Result<(), NoMemory>
    requires known { put.now.0.0 < length queues.old.lines }
    requires few { length (waiting put.now.0.0 queues.old) < 2 ^ 32 - 1 }
    ensures ok { OnOk result (queues.new ≡ on_link put.now.0.0 (with_packet put.now.1) queues.old) }
    ensures err { OnErr result (queues.new ≡ queues.old) }
{
    let (link, packet) = put;
    let copy = packet.try_clone()?;
    queues.put(*link, copy)
}

/// Takes packets that were put away again, the last one first.
pub fn take_back(queues: &mut Queues, puts: &[(LinkId, Packet)])
    requires { AreKnown (length queues.old.lines) puts.now }
    ensures { (before : Waits) → queues.old ≡ with_puts puts.now before → queues.new ≡ before }
{
    let mut left = puts.len();
    'puts: while left > 0 {
        left -= 1;
        let (link, _) = &puts[left];
        take_one_back(queues, *link);
    }
}

/// Takes the packet that was put last on a link away again. On a cut link nothing waits, and nothing is taken away.
fn take_one_back(queues: &mut Queues, link: LinkId)
    requires { link.0 < length queues.old.lines }
    ensures count { length queues.new.lines ≡ length queues.old.lines }
    ensures back { (before : Waits) (packet : APacket) → queues.old ≡ on_link link.0 (with_packet packet) before
        → queues.new ≡ before }
{
    let last = queues.waiting(link).saturating_sub(1);
    queues.lose(link, last);
}

/// Puts a copy of each control message at the end of their list, or none.
pub fn put_messages(queues: &mut Queues, messages: &[Addressed]) -> Result<(), NoMemory>
    requires room { length queues.old.control ≤ most_items }
    requires few { length messages.now ≤ most_items }
    ensures ok { OnOk result (queues.new ≡ with_messages messages.now queues.old) }
    ensures err { OnErr result (queues.new ≡ queues.old) }
{
    let count = put_some_messages(queues, messages);
    if count == messages.len() {
        return Ok(());
    }
    take_messages_back(queues, count);
    Err(NoMemory)
}

/// Puts as many as there is memory for, and says how many.
fn put_some_messages(queues: &mut Queues, messages: &[Addressed]) -> usize
    requires room { length queues.old.control ≤ most_items }
    requires few { length messages.now ≤ most_items }
    ensures count { result ≤ length messages.now }
    ensures put { queues.new ≡ with_messages (take result messages.now) queues.old }
{
    'messages: for (at, message) in messages.iter().enumerate() {
        if put_message(queues, message).is_err() {
            return at;
        }
    }
    messages.len()
}

fn put_message(queues: &mut Queues, message: &Addressed) -> Result<(), NoMemory>
    requires { length queues.old.control < 2 ^ 32 - 1 }
    ensures ok { OnOk result (queues.new ≡ with_messages (message.now ∷ []) queues.old) }
    ensures err { OnErr result (queues.new ≡ queues.old) }
{
    let copy = message.try_clone()?;
    queues.put_control(copy)
}

/// Takes the control messages that were put last away again, so many.
pub fn take_messages_back(queues: &mut Queues, count: usize)
    ensures { queues.new ≡ without_last count queues.old }
{
    'messages: for _ in 0..count {
        let last = queues.waiting_control().saturating_sub(1);
        queues.lose_control(last);
    }
}

/// Takes out what the event takes or loses, and cuts what it cuts.
pub fn take_out(queues: &mut Queues, event: &Event, outcome: Outcome)
    requires { IsInPlace queues.old event.now outcome }
    ensures { queues.new ≡ left_by event.now outcome queues.old }
{
    match event {
        Event::Take {
            link,
            place,
            keep: false,
        } if !is_idle(outcome) => lose(queues, *link, *place),
        Event::Lose { link, place } if is_ok(outcome) => lose(queues, *link, *place),
        Event::ControlTake { place, keep: false } if !is_idle(outcome) => lose_message(
            queues, *place,
        ),
        Event::ControlLose { place } if is_ok(outcome) => lose_message(queues, *place),
        Event::Cut { link } => queues.cut(*link),
        _ => {}
    }
}

fn lose(queues: &mut Queues, link: LinkId, place: u32)
    requires { IsThere queues.old link.0 place }
    ensures { queues.new ≡ on_link link.0 (without_packet place) queues.old }
{
    queues.lose(link, place);
}

fn lose_message(queues: &mut Queues, place: u32)
    ensures { queues.new ≡ without_message place queues.old }
{
    queues.lose_control(place);
}

fn is_ok(outcome: Outcome) -> bool
    ensures { result ≡ is_ok outcome }
{
    matches!(outcome, Outcome::Ok)
}
