// The line of a send.
ghost use Rattle.std.specs.Prelude.{◌≡◌, ◌<◌, ◌≤◌, [], length, map, IfOk};
ghost use Rattle.pipe_base.specs.Limits.{most_receivers};
ghost use Rattle.pipe_model.specs.Event.{IsOfGraph};
ghost use Rattle.pipe_text_schedule.specs.Named.{host_in};
ghost use Rattle.pipe_text_schedule.specs.Receivers.{receivers_in};
ghost use Rattle.pipe_text_schedule.specs.Send.{send_from, send_line, service_of};
ghost use Rattle.pipe_text_schedule.specs.Tick.{reading_of};

use crate::name::host_named;
use crate::receivers::read_receivers;
use pipe_base::{NoMemory, RECEIVER_LIMIT, Service, Ts};
use pipe_model::Event;
use pipe_text::{LineKind, read_number};
use pipe_topo::{NodeNames, Topology};
use std::alloc::Global;

/// `send HOST SERVICE READING HOST=BODY ..`, by the words after the verb.
pub fn read_send(
    alloc: Global,
    names: &NodeNames,
    topology: &Topology,
    words: &[&[u8]],
) -> Result<Result<Event, LineKind>, NoMemory>
    ensures event { IfOk result (λ read. read ≡ send_line topology.now names.now (map (λ word. word.now) words.now)) }
    ensures known { IfOk result (λ read. IfOk read (IsOfGraph topology.now)) }
{
    let Some((host, words)) = words.split_first() else {
        return Ok(Err(LineKind::Count));
    };
    let Some((service, words)) = words.split_first() else {
        return Ok(Err(LineKind::Count));
    };
    let Some((now, receivers)) = words.split_first() else {
        return Ok(Err(LineKind::Count));
    };
    if receivers.is_empty() {
        return Ok(Err(LineKind::Count));
    }
    if receivers.len() > RECEIVER_LIMIT {
        return Ok(Err(LineKind::Receivers));
    }
    read_fields(alloc, names, topology, host, service, now, receivers)
}

// The words of a send in order, of which there are as many as it wants.
fn read_fields(
    alloc: Global,
    names: &NodeNames,
    topology: &Topology,
    host: &[u8],
    service: &[u8],
    now: &[u8],
    receivers: &[&[u8]],
) -> Result<Result<Event, LineKind>, NoMemory>
    requires { (0 < length receivers.now) × (length receivers.now ≤ most_receivers) }
    ensures event { IfOk result
        (λ read. read ≡ send_from (host_in topology.now names.now host.now) (service_of service.now)
        (reading_of topology.now now.now)
        (receivers_in topology.now names.now [] (map (λ word. word.now) receivers.now))) }
    ensures known { IfOk result (λ read. IfOk read (IsOfGraph topology.now)) }
{
    let Some(host) = host_named(names, topology, host) else {
        return Ok(Err(LineKind::Node));
    };
    let Some(service) = service_of(service) else {
        return Ok(Err(LineKind::Service));
    };
    let Some(now) = read_number(now, topology.top().0) else {
        return Ok(Err(LineKind::Number));
    };
    match read_receivers(alloc, names, topology, receivers)? {
        Err(kind) => Ok(Err(kind)),
        Ok(dests) => Ok(Ok(Event::Send {
            host,
            service,
            now: Ts(now),
            dests,
        })),
    }
}

fn service_of(word: &[u8]) -> Option<Service>
    ensures { result ≡ service_of word.now }
{
    if word == b"best".as_slice() {
        Some(Service::BestEffort)
    } else if word == b"reliable".as_slice() {
        Some(Service::Reliable)
    } else {
        None
    }
}
