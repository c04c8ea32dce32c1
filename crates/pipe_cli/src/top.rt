// The top call.
ghost use Rattle.std.specs.Prelude.{◌≡◌, ◌≢◌, ◌↔◌, [], true, false, map, string_bytes};
ghost use Rattle.pipe_outside.specs.Outside.{Rose};
ghost use Rattle.pipe_cli.specs.Answer.{IsOfInput, IsCaused, IsWritten, DoesReplay, IsComplete};
ghost use Rattle.pipe_cli.specs.Form.{IsSomeForm};
ghost use Rattle.pipe_cli.specs.Status.{has_text};
ghost use Rattle.pipe_cli.specs.Write.{EndsAtFault};

use crate::read::{ReadStop, read_all};
use crate::replay::{Replayed, replay};
use crate::status::Status;
use crate::words::{Words, form_of};
use crate::write::write_all;
use pipe_base::List;
use pipe_model::Trace;
use pipe_outside::{Failed, Sink, Source};
use std::alloc::Global;

/// How the program ended, and what happened in its run. The trace is empty but with the status `Ok` and
/// with a write fault.
#[derive(Drop)]
pub struct Outcome {
    pub status: Status,
    pub trace: Trace,
}

/// Does all that the program does. The words come first: where they are no form, nothing is read. Then the input is read,
/// to its end or one byte beyond the limit; its first fault is the refusal. The run has ended and its text is made before
/// the first byte is written.
pub fn run<S: Source, K: Sink>(
    alloc: Global,
    words: &Words,
    source: &mut S,
    sink: &mut K,
) -> Outcome
    ensures usage { (result.status ≡ Status.Usage) ↔ ¬ IsSomeForm (map string_bytes words.now) }
    ensures unread { result.status ≡ Status.Usage → source.new ≡ source.old }
    ensures input { IsOfInput (S.left source.old) (S.left source.new) result.status }
    ensures cause { IsCaused result.status (S.faults source.old) (S.faults source.new) (K.faults sink.old)
        (K.faults sink.new) }
    ensures replay { has_text result.status ≡ true
        → DoesReplay (map string_bytes words.now) result.status (S.left source.old) (S.left source.new)
        (K.written sink.old) (K.written sink.new) result.trace }
    ensures last { result.status ≡ Status.WriteFault → EndsAtFault K.written K.faults sink.old sink.new }
    ensures silent { has_text result.status ≡ false → (sink.new ≡ sink.old) × (result.trace ≡ []) }
    ensures complete { ¬ Rose (S.faults source.old) (S.faults source.new)
        → ¬ Rose (K.faults sink.old) (K.faults sink.new)
        → IsComplete (map string_bytes words.now) (S.left source.old) result.status }
{
    let Some(form) = form_of(words) else {
        return stopped(alloc, Status::Usage);
    };
    let bytes = match read_all(alloc, source) {
        Ok(bytes) => bytes,
        Err(ReadStop::Failed) => return stopped(alloc, Status::ReadFault),
        Err(ReadStop::NoMemory) => return stopped(alloc, Status::NoMemory),
    };
    match replay(alloc, form, bytes) {
        Err(refusal) => stopped(alloc, refusal),
        Ok(done) => write_out(sink, done),
    }
}

fn write_out<K: Sink>(sink: &mut K, done: Replayed) -> Outcome
    ensures trace { result.trace ≡ done.trace }
    ensures written { IsWritten result.status (K.written sink.old) (K.written sink.new) done.text }
    ensures failed { result.status ≡ Status.WriteFault → Rose (K.faults sink.old) (K.faults sink.new) }
    ensures last { result.status ≡ Status.WriteFault → EndsAtFault K.written K.faults sink.old sink.new }
    ensures steady { result.status ≢ Status.WriteFault → K.faults sink.new ≡ K.faults sink.old }
{
    let Replayed { trace, text } = done;
    match write_all(sink, text.as_slice()) {
        Ok(()) => Outcome {
            status: Status::Ok,
            trace,
        },
        Err(Failed) => Outcome {
            status: Status::WriteFault,
            trace,
        },
    }
}

fn stopped(alloc: Global, status: Status) -> Outcome
    ensures status { result.status ≡ status }
    ensures trace { result.trace ≡ [] }
{
    Outcome {
        status,
        trace: List::new(alloc),
    }
}
