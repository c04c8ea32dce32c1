// What becomes of a control message that waits, and decisions of the controller.
ghost use Rattle.std.specs.Prelude.{◌≡◌, map, IfOk};
ghost use Rattle.pipe_graph.specs.Graph.{Graph};
ghost use Rattle.pipe_text_schedule.specs.Control.{control_line, control_lose_line, control_take_from, control_take_line, decide_line};
ghost use Rattle.pipe_model.specs.Event.{IsOfGraph};
ghost use Rattle.pipe_text_schedule.specs.Take.{place_of};

use crate::event::{LAST_PLACE, keep_of};
use crate::exact::{one_word, two_words};
use pipe_model::Event;
use pipe_text::{LineKind, read_number};

// `control take PLACE`, `control take PLACE keep` or `control lose PLACE`
pub fn read_control(words: &[&[u8]]) -> Result<Event, LineKind>
    ensures event { result ≡ control_line (map (λ word. word.now) words.now) }
    ensures known { (graph : Graph) → IfOk result (IsOfGraph graph) }
{
    let Some((verb, words)) = words.split_first() else {
        return Err(LineKind::Verb);
    };
    if *verb == b"take".as_slice() {
        read_take(words)
    } else if *verb == b"lose".as_slice() {
        read_lose(words)
    } else {
        Err(LineKind::Verb)
    }
}

fn read_take(words: &[&[u8]]) -> Result<Event, LineKind>
    ensures event { result ≡ control_take_line (map (λ word. word.now) words.now) }
    ensures known { (graph : Graph) → IfOk result (IsOfGraph graph) }
{
    if let Some(place) = one_word(words) {
        return take_at(place, Some(false));
    }
    let Some((place, keep)) = two_words(words) else {
        return Err(LineKind::Count);
    };
    take_at(place, keep_of(keep))
}

fn take_at(place: &[u8], keep: Option<bool>) -> Result<Event, LineKind>
    ensures event { result ≡ control_take_from (place_of place.now) keep }
    ensures known { (graph : Graph) → IfOk result (IsOfGraph graph) }
{
    let Some(place) = read_number(place, LAST_PLACE) else {
        return Err(LineKind::Number);
    };
    let Some(keep) = keep else {
        return Err(LineKind::Verb);
    };
    Ok(Event::ControlTake {
        place: place as u32,
        keep,
    })
}

fn read_lose(words: &[&[u8]]) -> Result<Event, LineKind>
    ensures event { result ≡ control_lose_line (map (λ word. word.now) words.now) }
    ensures known { (graph : Graph) → IfOk result (IsOfGraph graph) }
{
    let Some(place) = one_word(words) else {
        return Err(LineKind::Count);
    };
    let Some(place) = read_number(place, LAST_PLACE) else {
        return Err(LineKind::Number);
    };
    Ok(Event::ControlLose {
        place: place as u32,
    })
}

// `decide`
pub fn read_decide(words: &[&[u8]]) -> Result<Event, LineKind>
    ensures event { result ≡ decide_line (map (λ word. word.now) words.now) }
    ensures known { (graph : Graph) → IfOk result (IsOfGraph graph) }
{
    if words.is_empty() {
        Ok(Event::Decide)
    } else {
        Err(LineKind::Count)
    }
}
