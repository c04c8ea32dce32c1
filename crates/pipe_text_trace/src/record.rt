// The lines of a record.
ghost use Rattle.std.specs.Prelude.{◌≡◌, ◌++◌, [], ◌∷◌, map, OnOk};
ghost use Rattle.pipe_text_trace.specs.Line.{line_text, lines_text};
ghost use Rattle.pipe_text_trace.specs.Record.{control_line, down_line, dropped_line, event_line, fate_lines, logged_line, noted_line, outcome_line, put_line, record_lines, stamp_lines, took_lines, unrouted_lines};

use crate::control::print_addressed;
use crate::event::print_event_after;
use crate::packet::print_packet;
use crate::step::{print_fate, print_outcome};
use crate::word::{
    Appended, print_body, print_first_word, print_line_end, print_name, print_number, print_word,
};
use pipe_base::{Addressed, Announced, Entry, Fate, LinkId, Outcome, Packet, Service, Ts};
use pipe_model::{Event, Record, Took};
use pipe_text::service_word;
use pipe_topo::NodeNames;

fn print_event_line(out: &mut Vec<u8>, names: &NodeNames, at: usize, event: &Event) -> Appended
    ensures { OnOk result (out.new.items ≡ out.old.items ++ lines_text (event_line names.now at event.now ∷ [])) }
{
    print_first_word(out, b"event")?;
    print_number(out, at)?;
    print_event_after(out, names, event)?;
    print_line_end(out)
}

fn print_outcome_line(out: &mut Vec<u8>, names: &NodeNames, outcome: Outcome) -> Appended
    ensures { OnOk result (out.new.items ≡ out.old.items ++ lines_text (outcome_line names.now outcome ∷ [])) }
{
    print_first_word(out, b"outcome")?;
    print_outcome(out, names, outcome)?;
    print_line_end(out)
}

fn print_stamp_lines(out: &mut Vec<u8>, stamped: Option<Ts>) -> Appended
    ensures { OnOk result (out.new.items ≡ out.old.items ++ lines_text (stamp_lines stamped)) }
{
    let Some(ts) = stamped else {
        return Ok(());
    };
    print_first_word(out, b"stamp")?;
    print_number(out, ts.0)?;
    print_line_end(out)
}

fn print_took_lines(out: &mut Vec<u8>, names: &NodeNames, took: &Took) -> Appended
    ensures { OnOk result (out.new.items ≡ out.old.items ++ lines_text (took_lines names.now took.now)) }
{
    match took {
        Took::Nothing => Ok(()),
        Took::Link { link, packet } => {
            print_first_word(out, b"took")?;
            print_number(out, link.0)?;
            print_packet(out, names, packet)?;
            print_line_end(out)
        }
        Took::Message { addressed } => {
            print_first_word(out, b"tookcontrol")?;
            print_addressed(out, names, addressed)?;
            print_line_end(out)
        }
    }
}

fn print_down_lines(out: &mut Vec<u8>, downed: &[(LinkId, Ts)]) -> Appended
    ensures { OnOk result (out.new.items ≡ out.old.items ++ lines_text (map down_line downed.now)) }
{
    'downed: for (link, value) in downed {
        print_first_word(out, b"down")?;
        print_number(out, link.0)?;
        print_number(out, value.0)?;
        print_line_end(out)?;
    }
    Ok(())
}

fn print_noted_lines(out: &mut Vec<u8>, names: &NodeNames, noted: &[Announced]) -> Appended
    ensures { OnOk result (out.new.items ≡ out.old.items ++ lines_text (map (noted_line names.now) noted.now)) }
{
    'noted: for entry in noted {
        print_first_word(out, b"noted")?;
        print_name(out, names, entry.host.0)?;
        print_number(out, entry.time.0)?;
        print_line_end(out)?;
    }
    Ok(())
}

fn print_dropped_lines(out: &mut Vec<u8>, dropped: &[LinkId]) -> Appended
    ensures { OnOk result (out.new.items ≡ out.old.items ++ lines_text (map dropped_line dropped.now)) }
{
    'dropped: for link in dropped {
        print_first_word(out, b"dropped")?;
        print_number(out, link.0)?;
        print_line_end(out)?;
    }
    Ok(())
}

fn print_fate_lines(out: &mut Vec<u8>, received: Option<Fate>) -> Appended
    ensures { OnOk result (out.new.items ≡ out.old.items ++ lines_text (fate_lines received)) }
{
    let Some(fate) = received else {
        return Ok(());
    };
    print_first_word(out, b"fate")?;
    print_fate(out, fate)?;
    print_line_end(out)
}

fn print_logged_lines(out: &mut Vec<u8>, names: &NodeNames, logged: &[(Service, Entry)]) -> Appended
    ensures { OnOk result (out.new.items ≡ out.old.items ++ lines_text (map (logged_line names.now) logged.now)) }
{
    'logged: for (service, entry) in logged {
        print_first_word(out, b"logged")?;
        print_word(out, service_word(*service))?;
        print_number(out, entry.key.ts.0)?;
        print_name(out, names, entry.key.src.0)?;
        print_body(out, entry.body.bytes())?;
        print_line_end(out)?;
    }
    Ok(())
}

fn print_put_line(out: &mut Vec<u8>, names: &NodeNames, link: LinkId, put: &Packet) -> Appended
    ensures { OnOk result (out.new.items ≡ out.old.items ++ line_text (put_line names.now (link, put.now))) }
{
    print_first_word(out, b"put")?;
    print_number(out, link.0)?;
    print_packet(out, names, put)?;
    print_line_end(out)
}

fn print_put_lines(out: &mut Vec<u8>, names: &NodeNames, puts: &[(LinkId, Packet)]) -> Appended
    ensures { OnOk result (out.new.items ≡ out.old.items ++ lines_text (map (put_line names.now) puts.now)) }
{
    'puts: for (link, put) in puts {
        print_put_line(out, names, *link, put)?;
    }
    Ok(())
}

fn print_control_lines(out: &mut Vec<u8>, names: &NodeNames, control: &[Addressed]) -> Appended
    ensures { OnOk result (out.new.items ≡ out.old.items ++ lines_text (map (control_line names.now) control.now)) }
{
    'control: for told in control {
        print_first_word(out, b"control")?;
        print_addressed(out, names, told)?;
        print_line_end(out)?;
    }
    Ok(())
}

fn print_unrouted_lines(out: &mut Vec<u8>, count: u32) -> Appended
    ensures { OnOk result (out.new.items ≡ out.old.items ++ lines_text (unrouted_lines count)) }
{
    if count == 0 {
        return Ok(());
    }
    print_first_word(out, b"unrouted")?;
    print_number(out, count)?;
    print_line_end(out)
}

/// Appends the lines of the record with this number.
pub fn print_record(out: &mut Vec<u8>, names: &NodeNames, at: usize, happened: &Record) -> Appended
    ensures { OnOk result (out.new.items ≡ out.old.items ++ lines_text (record_lines names.now at happened.now)) }
{
    let step = &happened.step;
    print_event_line(out, names, at, &happened.event)?;
    print_outcome_line(out, names, step.outcome())?;
    print_stamp_lines(out, step.stamped())?;
    print_took_lines(out, names, &happened.took)?;
    print_down_lines(out, step.downed())?;
    print_noted_lines(out, names, step.noted())?;
    print_dropped_lines(out, step.dropped())?;
    print_fate_lines(out, step.fate())?;
    print_logged_lines(out, names, step.logged())?;
    print_put_lines(out, names, step.put())?;
    print_control_lines(out, names, step.control())?;
    print_unrouted_lines(out, step.unrouted())
}
