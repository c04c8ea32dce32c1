// What a record does to what its host keeps, and how it is undone.
ghost use Rattle.std.specs.Prelude.{◌≡◌, ◌∷◌, ℕ, List, Some, true};
ghost use Rattle.pipe_graph.specs.Graph.{Graph, is_host};
ghost use Rattle.pipe_base.specs.Scattering.{SenderCall};
ghost use Rattle.pipe_links.specs.Links.{AreBarriersAt};
ghost use Rattle.pipe_model.specs.declared.record.Record.{Record as ARecord};
ghost use Rattle.pipe_model.specs.Acting.{ComesIn};
ghost use Rattle.pipe_model.specs.Got.{gets};
ghost use Rattle.pipe_model.specs.Run.{IsNodeStep};
ghost use Rattle.pipe_model.specs.Sender.{with_answer, with_begun, with_noted};
ghost use Rattle.pipe_relsend.specs.Sending as sending;
ghost use Rattle.pipe_host.specs.Host.{HasReceiver, StandsTaking, buffers_for, buffers_with};
ghost use Rattle.pipe_host.specs.Sending.{has_begun, with_heard};

use crate::buffers::Buffers;
use pipe_barrier::Barriers;
use pipe_base::{HostId, Noted, Packet, PacketKind, Service, Ts};
use pipe_links::Links;
use pipe_model::{Event, Record, Took};
use pipe_relsend::Sender;

/// What a record tells its host's sender: an answer to a reliable message or to its recall, with the timestamp and who answers.
#[derive(Clone, Copy)]
enum Heard {
    Ack { ts: Ts, host: HostId },
    RecallAck { ts: Ts, host: HostId },
}

/// Hands the answer to the sender that the record brings to the host with these links, if it brings one.
pub fn hear(sender: &mut Sender, links: &Links, made: &Record)
    ensures { (graph : Graph) (node : ℕ) (own : List ARecord) (calls : List SenderCall)
        → StandsTaking made.now.event graph node own links.now → is_host graph node ≡ true
        → ComesIn graph node made.now.event → sending.Stands calls sender.old
        → sending.Stands (with_answer (gets graph node own made.now) calls) sender.new }
{
    match answer_in(links, made) {
        Some(Heard::Ack { ts, host }) => sender.ack(ts, host),
        Some(Heard::RecallAck { ts, host }) => sender.recall_ack(ts, host),
        None => {}
    }
}

/// The answer that the record brings to the host with these links.
fn answer_in(links: &Links, made: &Record) -> Option<Heard>
    ensures { (graph : Graph) (node : ℕ) (own : List ARecord) (calls : List SenderCall)
        → StandsTaking made.now.event graph node own links.now → is_host graph node ≡ true
        → ComesIn graph node made.now.event
        → with_answer (gets graph node own made.now) calls ≡ with_heard result calls }
{
    let Event::Take { link, .. } = &made.event else {
        return None;
    };
    let Took::Link { link: from, packet } = &made.took else {
        return None;
    };
    if from.0 != link.0 || packet.dst.0 != links.node().0 || !links.is_up(*link) {
        return None;
    }
    answer_of(packet)
}

/// The answer that a packet is.
fn answer_of(packet: &Packet) -> Option<Heard>
    ensures { (calls : List SenderCall) → with_answer (Some packet.now) calls ≡ with_heard result calls }
{
    let (ts, host) = (packet.ts, packet.src);
    match packet.kind {
        PacketKind::Ack => Some(Heard::Ack { ts, host }),
        PacketKind::RecallAck => Some(Heard::RecallAck { ts, host }),
        _ => None,
    }
}

/// Tells the sender all hosts that are noted, where the record noted some.
pub fn note(sender: &mut Sender, noted: &Noted, made: &Record)
    ensures { (calls : List SenderCall) → sending.Stands calls sender.old → sending.KnowsAll noted.now calls
        → sending.Stands (with_noted noted.now made.now.step.noted calls) sender.new }
{
    if !made.step.noted().is_empty() {
        sender.note(noted);
    }
}

/// Holds no more what these barriers have passed, which are those after the record, nor what is void by the hosts that the
/// record noted, nor what it took back.
pub fn let_out(held: &mut Buffers, barriers: Barriers, made: &Record)
    ensures { (graph : Graph) (node : ℕ) (own : List ARecord) → AreBarriersAt graph node (made.now ∷ own) barriers
        → held.old ≡ buffers_with graph node own made.now → held.new ≡ buffers_for graph node (made.now ∷ own) }
{
    held.drop_passed(barriers);
    held.drop_buried();
    if !made.step.noted().is_empty() {
        held.drop_void();
    }
}

/// Notes the hosts no more that are noted for the record, and takes out again what it brought.
pub fn give_back(held: &mut Buffers, made: &Record)
    ensures { (graph : Graph) (node : ℕ) (own : List ARecord) → IsNodeStep graph node own made.now
        → held.old ≡ buffers_with graph node own made.now → held.new ≡ buffers_for graph node own }
{
    held.unadopt(made.step.noted().len());
    if let Took::Link { packet, .. } = &made.took {
        held.give_back(made.step.fate(), packet, None);
    }
}

/// Takes the scattering back that was begun for the record.
pub fn take_back(sender: &mut Sender, made: &Record)
    ensures { (calls : List SenderCall) → HasReceiver made.now.event
        → sending.Stands (with_begun made.now.event made.now.step.stamped calls) sender.old
        → sending.Stands calls sender.new }
{
    if has_begun(made) {
        sender.unbegin();
    }
}

/// Whether the record is a reliable send that was stamped.
fn has_begun(made: &Record) -> bool
    ensures { result ≡ has_begun made.now.event made.now.step.stamped }
{
    match &made.event {
        Event::Send {
            service: Service::Reliable,
            ..
        } => made.step.stamped().is_some(),
        _ => false,
    }
}
