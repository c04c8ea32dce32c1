// The lines of a schedule as events.
ghost use Rattle.std.specs.Prelude.{◌≡◌, ◌+◌, ◌++◌, ◌<◌, ◌≤◌, ℕ, All, true, false, length, map, IfOk, IfSome, IfNone, Ok, Err, OnOk};
ghost use Rattle.std.specs.Option.{option_to_list};
ghost use Rattle.std.specs.Str.Lines.{lines};
ghost use Rattle.pipe_text.specs.declared.kind.LineKind.{LineKind as Kind};
ghost use Rattle.pipe_text.specs.Words.{is_skipped};
ghost use Rattle.pipe_model.specs.Event.{IsOfGraph};
ghost use Rattle.pipe_text_schedule.specs.Line.{line_event};
ghost use Rattle.pipe_text_schedule.specs.Plain.{IsFirstBad, IsFirstRead};
ghost use Rattle.pipe_text_schedule.specs.Schedule.{schedule_of};

use crate::event::read_event;
use crate::plain::read_plain_line;
use pipe_base::{List, NoMemory};
use pipe_model::{Event, EventList};
use pipe_text::{LineKind, is_skipped, read_line_words};
use pipe_topo::{NodeNames, Topology};
use std::alloc::Global;

/// Why there are no events.
#[derive(Clone, Copy, Debug, PartialEq, Eq)]
pub enum ScheduleFault {
    /// The first bad line, and the first fault of that line.
    Line { line: u32, kind: LineKind },
    NoMemory,
}

impl From<NoMemory> for ScheduleFault {
    ghost use Rattle.std.specs.Prelude.{◌≡◌};
    ghost use Rattle.pipe_text_schedule.specs.declared.schedule.ScheduleFault.TheVariants.{NoMemory};

    ghost from_gives = { λ _ e. e ≡ NoMemory };

    fn from(_: NoMemory) -> Self {
        ScheduleFault::NoMemory
    }
}

/// The events of a schedule whose first line has the number `first`.
pub fn read_schedule(
    alloc: Global,
    names: &NodeNames,
    topology: &Topology,
    text: &[u8],
    first: u32,
) -> Result<EventList, ScheduleFault>
    requires { length text.now + first ≤ 4294967295 }
    ensures events { IfOk result (λ events. schedule_of topology.now names.now first (lines text.now) ≡ Ok events) }
    ensures known { IfOk result (All (IsOfGraph topology.now)) }
    ensures fault { (line : ℕ) (kind : Kind) → result ≡ Err (ScheduleFault.Line line kind)
        → schedule_of topology.now names.now first (lines text.now) ≡ Err (line, kind) }
{
    let mut events = List::new(alloc);
    let mut words = Vec::new(alloc);
    let mut rest = text;
    let mut line = first;
    'lines: while !rest.is_empty() {
        let (event, after) = match read_first_line(alloc, names, topology, &mut words, rest, line) {
            Ok(read) => read,
            Err(fault) => return Err(fault),
        };
        add(&mut events, event)?;
        rest = after;
        line += 1;
    }
    Ok(events)
}

// Appends the event, where there is one.
fn add(events: &mut EventList, event: Option<Event>) -> Result<(), NoMemory>
    ensures { OnOk result (events.new ≡ events.old ++ option_to_list event) }
{
    match event {
        Some(event) => events.push(event),
        None => Ok(()),
    }
}

// The event of the first line, which has this number, and the text after that line. No event where the line is skipped. The
// words are room that each line uses anew.
fn read_first_line<'a>(
    alloc: Global,
    names: &NodeNames,
    topology: &Topology,
    words: &mut Vec<&'a [u8]>,
    text: &'a [u8],
    line: u32,
) -> Result<(Option<Event>, &'a [u8]), ScheduleFault>
    requires { 0 < length text.now }
    ensures event { IfOk result (λ p. IsFirstRead topology.now names.now text.now p.1.now p.0) }
    ensures known { IfOk result (λ p. IfSome p.0 (IsOfGraph topology.now)) }
    ensures fault { (at : ℕ) (kind : Kind) → result ≡ Err (ScheduleFault.Line at kind)
        → (at ≡ line) × IsFirstBad topology.now names.now text.now kind }
{
    if let Some((event, rest)) = read_plain_line(names, topology, text) {
        return Ok((Some(event), rest));
    }
    let rest = read_line_words(words, text)?;
    match read_line(alloc, names, topology, words.as_slice(), line) {
        Ok(event) => Ok((event, rest)),
        Err(fault) => Err(fault),
    }
}

// The event of the line with these words and this number. None where the line is skipped.
fn read_line(
    alloc: Global,
    names: &NodeNames,
    topology: &Topology,
    words: &[&[u8]],
    line: u32,
) -> Result<Option<Event>, ScheduleFault>
    ensures event { IfOk result (λ event. IfSome event (λ e. (is_skipped (map (λ word. word.now) words.now) ≡ false)
        × (line_event topology.now names.now (map (λ word. word.now) words.now) ≡ Ok e))) }
    ensures known { IfOk result (λ event. IfSome event (IsOfGraph topology.now)) }
    ensures skipped { IfOk result (λ event. IfNone event (is_skipped (map (λ word. word.now) words.now) ≡ true)) }
    ensures fault { (at : ℕ) (kind : Kind) → result ≡ Err (ScheduleFault.Line at kind)
        → (at ≡ line) × ((is_skipped (map (λ word. word.now) words.now) ≡ false)
        × (line_event topology.now names.now (map (λ word. word.now) words.now) ≡ Err kind)) }
{
    if is_skipped(words) {
        return Ok(None);
    }
    match read_event(alloc, names, topology, words)? {
        Ok(event) => Ok(Some(event)),
        Err(kind) => Err(ScheduleFault::Line { line, kind }),
    }
}
