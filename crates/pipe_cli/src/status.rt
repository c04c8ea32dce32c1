// How the program ended, and what it tells of it.
ghost use Rattle.std.specs.Prelude.{◌≡◌};
ghost use Rattle.pipe_cli.specs.Status.{exit_number, size_word, status_of_fault};

use pipe_base::Size;
use pipe_text::LineKind;
use pipe_text_input::InputFault;
use pipe_text_plan::PlanFault;
use std::fmt;

/// How the program ended. It is shown as the line that it prints on a refusal, without the line feed.
#[derive(Clone, Copy, Debug, PartialEq, Eq)]
pub enum Status {
    /// All was read to the end, and all was written.
    Ok,
    /// The words are no form of the program.
    Usage,
    ReadFault,
    /// What was written is a part of the text, from its beginning.
    WriteFault,
    /// The first fault of the topology part.
    BadTopology(PlanFault),
    /// The first line of the schedule that has a fault, counted from 1 over the whole input, and its first fault.
    BadSchedule { line: u32, kind: LineKind },
    /// The bytes of the input, at most one more than are read; the lines of the schedule that are not skipped; or what would
    /// have been put with the event that was refused.
    TooLong { what: Size, count: u32 },
    NoMemory,
}

/// The number that the program ends with.
pub fn exit_number(status: &Status) -> u8
    ensures { result ≡ exit_number status.now }
{
    match status {
        Status::Ok => 0,
        Status::Usage => 2,
        Status::ReadFault => 3,
        Status::WriteFault => 4,
        Status::BadTopology(_) => 5,
        Status::BadSchedule { .. } => 6,
        Status::TooLong { .. } => 7,
        Status::NoMemory => 8,
    }
}

/// The status of an input with this fault.
pub fn status_of_fault(fault: InputFault) -> Status
    ensures { result ≡ status_of_fault fault }
{
    match fault {
        InputFault::Plan(fault) => Status::BadTopology(fault),
        InputFault::TooManyEvents { count } => Status::TooLong {
            what: Size::Events,
            count,
        },
        InputFault::Line { line, kind } => Status::BadSchedule { line, kind },
        InputFault::NoMemory => Status::NoMemory,
    }
}

const USAGE: &str =
    "usage: replay [--trace] | judge | gen SEED HOSTS EVENTS [--run] | live TURNS [--step N]";

fn size_word(what: Size) -> &'static str
    ensures { result.now ≡ size_word what }
{
    match what {
        Size::Bytes => "bytes",
        Size::Events => "events",
        Size::Items => "items",
    }
}

impl fmt::Display for Status {
    ghost use Rattle.std.specs.Prelude.{Some};
    ghost use Rattle.pipe_cli.specs.Status.{status_line};

    ghost output = { λ status. Some (status_line status) };

    fn fmt<W: fmt::Write>(&self, f: &mut fmt::Formatter<W>) -> fmt::Result {
        match self {
            Status::Ok => f.write_str("onepipe: ok"),
            Status::Usage => write!(f, "onepipe: {USAGE}"),
            Status::ReadFault => f.write_str("onepipe: read fault"),
            Status::WriteFault => f.write_str("onepipe: write fault"),
            Status::BadTopology(fault) => write!(f, "onepipe: topology: {fault}"),
            Status::BadSchedule { line, kind } => write!(f, "onepipe: line {line}: {kind}"),
            Status::TooLong { what, count } => {
                let word = size_word(*what);
                write!(f, "onepipe: too long: {word} {count}")
            }
            Status::NoMemory => f.write_str("onepipe: no memory"),
        }
    }
}
