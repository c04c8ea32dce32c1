//! The program: it hands its words, standard input and standard output to `run`, prints one line on a refusal, and ends
//! with the number of the status.
#![tactic(auto)]

mod streams;

ghost use Rattle.std.specs.Prelude.{◌≡◌, map, drop, string_bytes, IfOk, IfErr, OnErr};
ghost use Rattle.std.specs.IoError.{error_kind};
ghost use Rattle.std.specs.Process.{exit_status};
ghost use Rattle.std.specs.Vec.Iter.{into_iter_items};
ghost use Rattle.pipe_cli.specs.Status.{exit_number};
ghost use Rattle.onepipe.specs.Ending.{EndsAsRun, status_without_words};

use crate::streams::{StdSink, StdSource};
use pipe_base::List;
use pipe_cli::{Status, Words, exit_number, run};
use pipe_outside::{Sink, Source};
use std::alloc::Global;
use std::env::Args;
use std::mem::forget;
use std::process::ExitCode;
use std::rt::Env;
use std::{env, io};

/// The words of the command line without the program's name. One that is no text is an error.
fn words_of(rt: &(impl Env + AllocGlobal)) -> io::Result<Words> {
    let arguments = env::args(rt)?;
    without_name(rt.alloc(), arguments)
}

/// The arguments without the first, which is the program's name.
fn without_name(alloc: Global, arguments: Args) -> io::Result<Words>
    ensures { IfOk result (λ words. words ≡ drop 1 (into_iter_items arguments)) }
{
    let words = arguments.skip(1).collect(alloc)?;
    Ok(List::from_vec(words))
}

/// The status where the words could not be had.
fn status_without_words(fault: &io::Error) -> Status
    ensures { result ≡ status_without_words (error_kind fault.now) }
{
    match fault.kind() {
        io::ErrorKind::OutOfMemory => Status::NoMemory,
        _ => Status::Usage,
    }
}

/// Prints the line of a refusal. Where standard error can't be written either, the number tells it alone.
fn told(rt: &impl Eprint, status: Status) -> ExitCode
    ensures { exit_status result ≡ exit_number status }
{
    if status != Status::Ok {
        let _ = eprintln!(rt; "{status}");
    }
    ExitCode::from(exit_number(&status))
}

/// Runs the program over these words, and answers what the process ends with.
fn ended<S: Source, K: Sink>(
    rt: &(impl Eprint + AllocGlobal),
    words: io::Result<Words>,
    source: &mut S,
    sink: &mut K,
) -> ExitCode
    ensures wordless { IfErr words (λ fault. exit_status result ≡ exit_number (status_without_words (error_kind fault))) }
    ensures untouched { OnErr words ((source.new ≡ source.old) × (sink.new ≡ sink.old)) }
    ensures ran { IfOk words (λ words. EndsAsRun S.left S.faults K.written K.faults (map string_bytes words) source.old source.new sink.old sink.new (exit_status result)) }
{
    match words {
        Ok(words) => {
            let outcome = run(rt.alloc(), &words, source, sink);
            // The process ends, and all its memory with it: the trace is not freed block by block.
            forget(outcome.trace);
            told(rt, outcome.status)
        }
        Err(fault) => told(rt, status_without_words(&fault)),
    }
}

fn main(rt: HostRuntime) -> ExitCode {
    let words = words_of(&rt);
    let mut source = StdSource::new(rt.reader());
    let mut sink = StdSink::new(io::writer(&rt));
    ended(&rt, words, &mut source, &mut sink)
}
