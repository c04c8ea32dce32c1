// Lines in the form that most lines have: a verb and two words, one space after each but the last and a line feed at the end.
// Their events are read in one pass, without a list of words. A line in another form, or with a fault, is left to the others.
ghost use Rattle.std.specs.Prelude.{◌≡◌, ◌<◌, List, ℕ, codes, IfSome, Some};
ghost use Rattle.pipe_model.specs.Event.{IsOfGraph};
ghost use Rattle.pipe_text_schedule.specs.Plain.{IsFirstRead, IsPlain};

use crate::event::LAST_PLACE;
use crate::name::{LAST_LINK, link_numbered, node_named};
use pipe_base::Ts;
use pipe_model::Event;
use pipe_text::{cut_word, number_before};
use pipe_topo::{NodeNames, Topology};

/// The event of the first line and the text after that line, where that is a take or a tick in this form without a fault.
pub fn read_plain_line<'a>(
    names: &NodeNames,
    topology: &Topology,
    text: &'a [u8],
) -> Option<(Event, &'a [u8])>
    ensures event { IfSome result (λ p. IsFirstRead topology.now names.now text.now p.1.now (Some p.0)) }
    ensures known { IfSome result (λ p. IsOfGraph topology.now p.0) }
{
    match text {
        [b't', b'a', b'k', b'e', b' ', rest @ ..] => read_plain_take(topology, rest),
        [b't', b'i', b'c', b'k', b' ', rest @ ..] => read_plain_tick(names, topology, rest),
        _ => None,
    }
}

// `LINK PLACE`
fn read_plain_take<'a>(topology: &Topology, text: &'a [u8]) -> Option<(Event, &'a [u8])>
    ensures event { (names : List (List ℕ))
        → IfSome result (λ p. IsPlain topology.now names (codes "take") text.now p.1.now p.0) }
    ensures known { IfSome result (λ p. IsOfGraph topology.now p.0) }
{
    let (link, rest) = number_before(text, b' ', LAST_LINK)?;
    let (place, rest) = number_before(rest, b'\n', LAST_PLACE)?;
    let link = link_numbered(topology, link)?;
    let event = Event::Take {
        link,
        place: place as u32,
        keep: false,
    };
    Some((event, rest))
}

// `NODE READING`
fn read_plain_tick<'a>(
    names: &NodeNames,
    topology: &Topology,
    text: &'a [u8],
) -> Option<(Event, &'a [u8])>
    ensures event { IfSome result (λ p. IsPlain topology.now names.now (codes "tick") text.now p.1.now p.0) }
    ensures known { IfSome result (λ p. IsOfGraph topology.now p.0) }
{
    let (node, stop, rest) = cut_word(text)?;
    if node.is_empty() || stop != b' ' {
        return None;
    }
    let (now, rest) = number_before(rest, b'\n', topology.top().0)?;
    let node = node_named(names, topology, node)?;
    Some((Event::Tick { node, now: Ts(now) }, rest))
}
