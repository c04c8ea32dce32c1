// Outcomes and fates after another word of the line.
ghost use Rattle.std.specs.Prelude.{◌≡◌, ◌++◌, OnOk};
ghost use Rattle.pipe_text_trace.specs.Line.{next_words};
ghost use Rattle.pipe_text_trace.specs.Step.{fate_words, outcome_words};

use crate::word::{Appended, print_name, print_number, print_word};
use pipe_base::{Fate, Outcome};
use pipe_topo::NodeNames;

/// Appends the words of an outcome.
pub fn print_outcome(out: &mut Vec<u8>, names: &NodeNames, outcome: Outcome) -> Appended
    ensures { OnOk result (out.new.items ≡ out.old.items ++ next_words (outcome_words names.now outcome)) }
{
    match outcome {
        Outcome::Ok => print_word(out, b"ok"),
        Outcome::DestFailed { host } => {
            print_word(out, b"destfailed")?;
            print_name(out, names, host.0)
        }
        Outcome::Window { count } => {
            print_word(out, b"window")?;
            print_number(out, count)
        }
        Outcome::ClockEnd { next } => {
            print_word(out, b"clockend")?;
            print_number(out, next.0)
        }
        Outcome::Crashed => print_word(out, b"crashed"),
        Outcome::NoItem => print_word(out, b"noitem"),
        Outcome::Ignored => print_word(out, b"ignored"),
    }
}

/// Appends the words of a fate.
pub fn print_fate(out: &mut Vec<u8>, fate: Fate) -> Appended
    ensures { OnOk result (out.new.items ≡ out.old.items ++ next_words (fate_words fate)) }
{
    match fate {
        Fate::Held => print_word(out, b"held"),
        Fate::Repeat => print_word(out, b"repeat"),
        Fate::Late { barrier } => {
            print_word(out, b"late")?;
            print_number(out, barrier.0)
        }
        Fate::Discarded { time } => {
            print_word(out, b"discarded")?;
            print_number(out, time.0)
        }
        Fate::Recalled => print_word(out, b"recalled"),
    }
}
