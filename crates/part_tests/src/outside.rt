// What no clause says: that the forms of the outside in memory give and take bytes with ample memory.

use pipe_base::NoMemory;
use pipe_outside::*;
use std::process::Abort;

// How many bytes each call gives, or that it fails, and what then stands in the two bytes of the buffer.
static READS: [(Option<usize>, &[u8]); 4] = [
    (Some(2), b"ab"),
    (None, b"ab"),
    (Some(1), b"cb"),
    (Some(0), b"cb"),
];

fn read_all(rt: &impl Abort, source: &mut MemorySource) {
    let mut buf = [0u8; 2];
    for (count, given) in &READS {
        assert!(rt; source.read(&mut buf).ok() == *count);
        assert!(rt; buf.as_slice() == *given);
    }
}

fn read_steadily(rt: &impl Abort, source: &mut SteadySource) {
    let mut buf = [0u8; 2];
    for count in [2usize, 1, 0] {
        assert!(rt; source.read(&mut buf).ok() == Some(count));
    }
}

#[test]
fn sources_in_memory_give_their_bytes(rt: HostRuntime) -> Result<(), NoMemory> {
    read_all(&rt, &mut MemorySource::new(rt.alloc(), b"abc", &[1])?);
    read_steadily(&rt, &mut SteadySource::new(rt.alloc(), b"abc")?);
    Ok(())
}

// Each piece, and how many bytes of it are taken, or that the call fails.
static WRITES: [(&[u8], Option<usize>); 5] = [
    (b"abcd", Some(3)),
    (b"d", None),
    (b"defg", Some(2)),
    (b"", Some(0)),
    (b"f", None),
];

fn write_all(rt: &impl Abort, sink: &mut MemorySink) {
    for (piece, count) in &WRITES {
        assert!(rt; sink.write(piece).ok() == *count);
    }
    assert!(rt; sink.bytes() == b"abcde".as_slice());
}

#[test]
fn sinks_in_memory_take_what_fits(rt: HostRuntime) -> Result<(), NoMemory> {
    write_all(&rt, &mut MemorySink::new(rt.alloc(), 5, 3, &[1])?);
    assert!(rt; SteadySink::new().write(b"abc").ok() == Some(3));
    Ok(())
}
