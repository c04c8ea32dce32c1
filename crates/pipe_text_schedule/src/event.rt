// A line of the schedule as an event.
ghost use Rattle.std.specs.Prelude.{◌≡◌, map, IfOk};
ghost use Rattle.pipe_model.specs.Event.{IsOfGraph};
ghost use Rattle.pipe_text_schedule.specs.Line.{line_event};
ghost use Rattle.pipe_text_schedule.specs.Named.{link_in};
ghost use Rattle.pipe_text_schedule.specs.Take.{keep_of, lose_line, place_of, take_from, take_line};
ghost use Rattle.pipe_text_schedule.specs.Tick.{tick_line};

use crate::control::{read_control, read_decide};
use crate::exact::{three_words, two_words};
use crate::failure::read_failure;
use crate::name::{link_named, node_named};
use crate::send::read_send;
use pipe_base::{NoMemory, Ts};
use pipe_model::Event;
use pipe_text::{LineKind, read_number};
use pipe_topo::{NodeNames, Topology};
use std::alloc::Global;

/// The last place that a take or a loss can name.
pub const LAST_PLACE: u64 = 4294967295;

/// The event of a line, by its words, or the line's first fault.
pub fn read_event(
    alloc: Global,
    names: &NodeNames,
    topology: &Topology,
    words: &[&[u8]],
) -> Result<Result<Event, LineKind>, NoMemory>
    ensures event { IfOk result (λ read. read ≡ line_event topology.now names.now (map (λ word. word.now) words.now)) }
    ensures known { IfOk result (λ read. IfOk read (IsOfGraph topology.now)) }
{
    let Some((verb, words)) = words.split_first() else {
        return Ok(Err(LineKind::Verb));
    };
    if *verb == b"send".as_slice() {
        return read_send(alloc, names, topology, words);
    }
    Ok(if *verb == b"tick".as_slice() {
        read_tick(names, topology, words)
    } else if *verb == b"take".as_slice() {
        read_take(topology, words)
    } else if *verb == b"lose".as_slice() {
        read_lose(topology, words)
    } else if *verb == b"control".as_slice() {
        read_control(words)
    } else if *verb == b"decide".as_slice() {
        read_decide(words)
    } else {
        read_failure(names, topology, verb, words)
    })
}

// `tick NODE READING`
fn read_tick(names: &NodeNames, topology: &Topology, words: &[&[u8]]) -> Result<Event, LineKind>
    ensures event { result ≡ tick_line topology.now names.now (map (λ word. word.now) words.now) }
    ensures known { IfOk result (IsOfGraph topology.now) }
{
    let Some((node, now)) = two_words(words) else {
        return Err(LineKind::Count);
    };
    let Some(node) = node_named(names, topology, node) else {
        return Err(LineKind::Node);
    };
    let Some(now) = read_number(now, topology.top().0) else {
        return Err(LineKind::Number);
    };
    Ok(Event::Tick { node, now: Ts(now) })
}

// `take LINK PLACE` or `take LINK PLACE keep`
fn read_take(topology: &Topology, words: &[&[u8]]) -> Result<Event, LineKind>
    ensures event { result ≡ take_line topology.now (map (λ word. word.now) words.now) }
    ensures known { IfOk result (IsOfGraph topology.now) }
{
    if let Some((link, place)) = two_words(words) {
        return take_at(topology, link, place, Some(false));
    }
    let Some((link, place, keep)) = three_words(words) else {
        return Err(LineKind::Count);
    };
    take_at(topology, link, place, keep_of(keep))
}

fn take_at(
    topology: &Topology,
    link: &[u8],
    place: &[u8],
    keep: Option<bool>,
) -> Result<Event, LineKind>
    ensures event { result ≡ take_from (link_in topology.now link.now) (place_of place.now) keep }
    ensures known { IfOk result (IsOfGraph topology.now) }
{
    let Some(link) = link_named(topology, link) else {
        return Err(LineKind::Link);
    };
    let Some(place) = read_number(place, LAST_PLACE) else {
        return Err(LineKind::Number);
    };
    let Some(keep) = keep else {
        return Err(LineKind::Verb);
    };
    Ok(Event::Take {
        link,
        place: place as u32,
        keep,
    })
}

/// What the last word of a take says.
pub fn keep_of(word: &[u8]) -> Option<bool>
    ensures { result ≡ keep_of word.now }
{
    if word == b"keep".as_slice() {
        Some(true)
    } else {
        None
    }
}

// `lose LINK PLACE`
fn read_lose(topology: &Topology, words: &[&[u8]]) -> Result<Event, LineKind>
    ensures event { result ≡ lose_line topology.now (map (λ word. word.now) words.now) }
    ensures known { IfOk result (IsOfGraph topology.now) }
{
    let Some((link, place)) = two_words(words) else {
        return Err(LineKind::Count);
    };
    let Some(link) = link_named(topology, link) else {
        return Err(LineKind::Link);
    };
    let Some(place) = read_number(place, LAST_PLACE) else {
        return Err(LineKind::Number);
    };
    Ok(Event::Lose {
        link,
        place: place as u32,
    })
}
