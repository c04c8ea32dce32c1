// An event as a line of a schedule.
ghost use Rattle.std.specs.Prelude.{◌≡◌, ◌++◌, [], ◌∷◌, map, decimal, IfOk, OnOk};
ghost use Rattle.pipe_text.specs.Log.{service_word};
ghost use Rattle.pipe_text.specs.Name.{name_of};
ghost use Rattle.pipe_text_trace.specs.Event.{dest_word, detail_words, event_words, keep_words, verb_word};
ghost use Rattle.pipe_text_trace.specs.Line.{next_words};
ghost use Rattle.pipe_text_trace.specs.TraceText.{event_text};

use crate::word::{
    Appended, print_first_word, print_line_end, print_name, print_number, print_word,
};
use pipe_base::{Body, Dest, HostId, List, NoMemory, Service, Ts};
use pipe_model::Event;
use pipe_text::{Text, print_hex, service_word};
use pipe_topo::NodeNames;
use std::alloc::Global;

fn print_dest(out: &mut Vec<u8>, names: &NodeNames, receiver: HostId, body: &Body) -> Appended
    ensures { OnOk result (out.new.items ≡ out.old.items
        ++ next_words (dest_word names.now (receiver, body.now) ∷ [])) }
{
    print_name(out, names, receiver.0)?;
    out.push(b'=')?;
    print_hex(out, body.bytes())
}

fn print_dests(out: &mut Vec<u8>, names: &NodeNames, dests: &[Dest]) -> Appended
    ensures { OnOk result (out.new.items ≡ out.old.items ++ next_words (map (dest_word names.now) dests.now)) }
{
    'dests: for (receiver, body) in dests {
        print_dest(out, names, *receiver, body)?;
    }
    Ok(())
}

fn print_sending(
    out: &mut Vec<u8>,
    names: &NodeNames,
    sender: HostId,
    service: Service,
    now: Ts,
) -> Appended
    ensures { OnOk result (out.new.items ≡ out.old.items
        ++ next_words (name_of names.now sender.0 ∷ service_word service ∷ decimal now.0 ∷ [])) }
{
    print_name(out, names, sender.0)?;
    print_word(out, service_word(service))?;
    print_number(out, now.0)
}

fn print_keep(out: &mut Vec<u8>, keep: bool) -> Appended
    ensures { OnOk result (out.new.items ≡ out.old.items ++ next_words (keep_words keep)) }
{
    if keep {
        print_word(out, b"keep")
    } else {
        Ok(())
    }
}

fn verb_word(event: &Event) -> &'static [u8]
    ensures { result.now ≡ verb_word event.now }
{
    match event {
        Event::Send { .. } => b"send",
        Event::Tick { .. } => b"tick",
        Event::Take { .. } => b"take",
        Event::Lose { .. } => b"lose",
        Event::ControlTake { .. } => b"control",
        Event::ControlLose { .. } => b"control",
        Event::Decide => b"decide",
        Event::Crash { .. } => b"crash",
        Event::Cut { .. } => b"cut",
    }
}

fn print_details(out: &mut Vec<u8>, names: &NodeNames, event: &Event) -> Appended
    ensures { OnOk result (out.new.items ≡ out.old.items ++ next_words (detail_words names.now event.now)) }
{
    match event {
        Event::Send {
            host,
            service,
            now,
            dests,
        } => {
            print_sending(out, names, *host, *service, *now)?;
            print_dests(out, names, dests.as_slice())
        }
        Event::Tick { node, now } => {
            print_name(out, names, node.0)?;
            print_number(out, now.0)
        }
        Event::Take { link, place, keep } => {
            print_number(out, link.0)?;
            print_number(out, *place)?;
            print_keep(out, *keep)
        }
        Event::Lose { link, place } => {
            print_number(out, link.0)?;
            print_number(out, *place)
        }
        Event::ControlTake { place, keep } => {
            print_word(out, b"take")?;
            print_number(out, *place)?;
            print_keep(out, *keep)
        }
        Event::ControlLose { place } => {
            print_word(out, b"lose")?;
            print_number(out, *place)
        }
        Event::Decide => Ok(()),
        Event::Crash { node } => print_name(out, names, node.0),
        Event::Cut { link } => print_number(out, link.0),
    }
}

/// Appends the words of an event after another word of the line.
pub fn print_event_after(out: &mut Vec<u8>, names: &NodeNames, event: &Event) -> Appended
    ensures { OnOk result (out.new.items ≡ out.old.items ++ next_words (event_words names.now event.now)) }
{
    print_word(out, verb_word(event))?;
    print_details(out, names, event)
}

/// An event as a line of a schedule, with its line feed. The names of the `hosts` hosts come first; a name that is not
/// there is empty.
pub fn print_event(alloc: Global, names: &NodeNames, event: &Event) -> Result<Text, NoMemory>
    ensures { IfOk result (λ text. text ≡ event_text names.now event.now) }
{
    let mut out = Vec::new(alloc);
    print_first_word(&mut out, verb_word(event))?;
    print_details(&mut out, names, event)?;
    print_line_end(&mut out)?;
    Ok(List::from_vec(out))
}
