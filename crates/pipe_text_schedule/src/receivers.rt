// The receivers of a send: words `HOST=BODY`.
ghost use Rattle.std.specs.Prelude.{◌≡◌, ◌==◌, ◌<◌, ◌≤◌, ℕ, [], false, map, position, length, IfOk};
ghost use Rattle.pipe_base.specs.Limits.{most_receivers};
ghost use Rattle.pipe_model.specs.Event.{AreReceivers};
ghost use Rattle.pipe_text_schedule.specs.Receivers.{is_named, receiver_from, receiver_in, receivers_in};

use crate::name::host_named;
use pipe_base::{Body, Dest, DestList, HostId, List, NoMemory};
use pipe_text::{LineKind, read_body};
use pipe_topo::{NodeNames, Topology};
use std::alloc::Global;

/// The receivers of one to sixteen words, all different, or the first fault.
pub fn read_receivers(
    alloc: Global,
    names: &NodeNames,
    topology: &Topology,
    words: &[&[u8]],
) -> Result<Result<DestList, LineKind>, NoMemory>
    requires { (0 < length words.now) × (length words.now ≤ most_receivers) }
    ensures value { IfOk result
        (λ read. read ≡ receivers_in topology.now names.now [] (map (λ word. word.now) words.now)) }
    ensures known { IfOk result (λ read. IfOk read (AreReceivers topology.now)) }
{
    let mut dests = List::new(alloc);
    for word in words {
        match receiver_of(alloc, names, topology, dests.as_slice(), word)? {
            Ok(dest) => dests.push(dest)?,
            Err(kind) => return Ok(Err(kind)),
        }
    }
    Ok(Ok(dests))
}

// The receiver of a word, after those that were read.
fn receiver_of(
    alloc: Global,
    names: &NodeNames,
    topology: &Topology,
    before: &[Dest],
    word: &[u8],
) -> Result<Result<Dest, LineKind>, NoMemory>
    ensures value { IfOk result (λ read. read ≡ receiver_in topology.now names.now before.now word.now) }
    ensures known { IfOk result (λ read. IfOk read (λ d. d.0.0 < topology.now.hosts)) }
    ensures new { IfOk result (λ read. IfOk read (λ d. is_named d.0.0 before.now ≡ false)) }
{
    let Some(at) = equals_sign(word) else {
        return Ok(Err(LineKind::Node));
    };
    let (name, _) = word.split_at(at);
    let (_, body) = word.split_at(at + 1);
    let Some(host) = host_named(names, topology, name) else {
        return Ok(Err(LineKind::Node));
    };
    let Some(body) = read_body(alloc, body)? else {
        return Ok(Err(LineKind::Body));
    };
    if is_named(host, before) {
        return Ok(Err(LineKind::Twice));
    }
    Ok(Ok((host, body)))
}

// Where the first `=` is.
fn equals_sign(word: &[u8]) -> Option<usize>
    ensures { result ≡ position (λ byte. byte == 61) word.now }
{
    word.iter().position(|byte| *byte == b'=')
}

fn is_named(host: HostId, dests: &[Dest]) -> bool
    ensures { result ≡ is_named host.0 dests.now }
{
    dests.iter().any(|dest| dest.0.0 == host.0)
}
