// The program over the forms in memory: a few worked inputs with what it writes, refusals, and faults of the outside. `.ci`
// runs the built program on all others.

use pipe_base::{List, NoMemory};
use pipe_cli::{Status, Words, run};
use pipe_outside::{MemorySink, MemorySource, SteadySink, SteadySource};
use pipe_text::LineKind;
use pipe_text_plan::PlanFault;
use pipe_topo::TopoFault;
use std::alloc::Global;

/// Words and an input, the reads and the writes that fail; the status, what is written, and the records of the trace.
struct Case {
    words: &'static [&'static str],
    input: &'static str,
    reads: &'static [u32],
    writes: &'static [u32],
    status: Status,
    written: &'static str,
    records: usize,
}

const REPLAY: &[&str] = &["replay"];

const TRACE: &[&str] = &["replay", "--trace"];

const TWO_HOSTS: &str =
    "star 2\nsend h0 best 10 h1=6869\ntick h0 20\ntick h1 15\ntake 0 0\ntake 0 0\ntake 2 0\n\
     tick s0.up 0\ntake 4 0\ntake 4 0\ntick s0.down 0\ntake 3 0\ntake 3 0\n";

static CASES: [Case; 10] = [
    Case {
        words: REPLAY,
        input: TWO_HOSTS,
        reads: &[],
        writes: &[],
        status: Status::Ok,
        written: "log h0 best 0\nlog h0 reliable 0\nlog h1 best 1\n10 h0 6869\nlog h1 reliable 0\n",
        records: 12,
    },
    // An acknowledgement is lost: the message is put again at the next tick, and then both receivers have acknowledged it.
    Case {
        words: REPLAY,
        input: "star 2\nsend h0 reliable 10 h0=a0 h1=a1\ntake 0 0\ntake 0 0\ntake 4 0\ntake 4 0\ntake 1 0\ntake 3 0\n\
                lose 2 0\ntake 0 0\ntake 4 0\ntake 1 0\ntick h0 20\ntick h1 20\ntake 0 0\ntake 0 0\ntake 2 0\n\
                tick s0.up 0\ntake 4 0\ntake 4 0\ntick s0.down 0\ntake 3 0\ntake 3 0\ntake 1 0\ntake 2 0\ntake 4 0\n\
                take 1 0\ntick h0 30\ntick h1 30\ntake 0 0\ntake 2 0\ntick s0.up 0\ntake 4 0\ntick s0.down 0\ntake 1 0\n\
                take 3 0\n",
        reads: &[],
        writes: &[],
        status: Status::Ok,
        written: "log h0 best 0\nlog h0 reliable 1\n10 h0 a0\nlog h1 best 0\nlog h1 reliable 1\n10 h0 a1\n",
        records: 35,
    },
    Case {
        words: TRACE,
        input: "star 1\nsend h0 best 10 h0=6869\ntake 0 0\n",
        reads: &[],
        writes: &[],
        status: Status::Ok,
        written: "trace 2\nevent 0 send h0 best 10 h0=6869\noutcome ok\nstamp 10\nput 0 plain h0 h0 10 10 11 6869\n\
                  event 1 take 0 0\noutcome ok\ntook 0 plain h0 h0 10 10 11 6869\nput 2 plain h0 h0 10 10 11 6869\n\
                  end\nlog h0 best 0\nlog h0 reliable 0\n",
        records: 2,
    },
    // Words that are no form are refused before anything is read.
    Case {
        words: &["replay", "trace"],
        input: "star 2",
        reads: &[0],
        writes: &[],
        status: Status::Usage,
        written: "",
        records: 0,
    },
    Case {
        words: REPLAY,
        input: "hosts = [\"h0\", \"h1\"]\nswitches = [\"s0 1\", \"s1 1\"]\ncables = [\"h0 s0\", \"h1 s1\"]\n---\n",
        reads: &[],
        writes: &[],
        status: Status::BadTopology(PlanFault::Topo(TopoFault::Apart { a: 0, b: 1 })),
        written: "",
        records: 0,
    },
    Case {
        words: TRACE,
        input: "star 2\nsend h0 best 10 h1=\ntick h0 20\n# c\n\ntick h1 15\ntick h9 15\n",
        reads: &[],
        writes: &[],
        status: Status::BadSchedule {
            line: 7,
            kind: LineKind::Node,
        },
        written: "",
        records: 0,
    },
    Case {
        words: REPLAY,
        input: "star 2\n",
        reads: &[],
        writes: &[1],
        status: Status::WriteFault,
        written: "log h0 bes",
        records: 0,
    },
    Case {
        words: REPLAY,
        input: TWO_HOSTS,
        reads: &[],
        writes: &[1],
        status: Status::WriteFault,
        written: "log h0 bes",
        records: 12,
    },
    Case {
        words: REPLAY,
        input: TWO_HOSTS,
        reads: &[0],
        writes: &[],
        status: Status::ReadFault,
        written: "",
        records: 0,
    },
    Case {
        words: REPLAY,
        input: TWO_HOSTS,
        reads: &[1],
        writes: &[],
        status: Status::ReadFault,
        written: "",
        records: 0,
    },
];

fn words(alloc: Global, texts: &[&str]) -> Result<Words, NoMemory> {
    let mut words = List::new(alloc);
    for text in texts {
        words.push(String::from_str(alloc, text)?)?;
    }
    Ok(words)
}

// Over a sink that takes ten bytes a call.
fn ends_so(alloc: Global, case: &Case) -> Result<bool, NoMemory> {
    let words = words(alloc, case.words)?;
    let mut source = MemorySource::new(alloc, case.input.as_bytes(), case.reads)?;
    let mut sink = MemorySink::new(alloc, 2000, 10, case.writes)?;
    let outcome = run(alloc, &words, &mut source, &mut sink);
    Ok(
        outcome.status == case.status
            && outcome.trace.len() == case.records
            && sink.bytes() == case.written.as_bytes(),
    )
}

#[test]
fn writes_and_refuses(rt: HostRuntime) -> Result<(), NoMemory> {
    for case in &CASES {
        assert!(rt; ends_so(rt.alloc(), case)?, "{}", case.input);
    }
    Ok(())
}

// Over a source and a sink that never fail.
#[test]
fn runs_with_ample_memory(rt: HostRuntime) -> Result<(), NoMemory> {
    let mut source = SteadySource::new(rt.alloc(), TWO_HOSTS.as_bytes())?;
    let words = words(rt.alloc(), REPLAY)?;
    let outcome = run(rt.alloc(), &words, &mut source, &mut SteadySink::new());
    assert!(rt; outcome.status == Status::Ok && outcome.trace.len() == 12);
    Ok(())
}
