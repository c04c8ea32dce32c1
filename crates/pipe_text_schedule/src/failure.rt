// Nodes that crash and links that are cut.
ghost use Rattle.std.specs.Prelude.{◌≡◌, map, IfOk};
ghost use Rattle.pipe_text_schedule.specs.Failure.{crash_line, cut_line};
ghost use Rattle.pipe_text_schedule.specs.Line.{failure_event};
ghost use Rattle.pipe_model.specs.Event.{IsOfGraph};

use crate::exact::one_word;
use crate::name::{link_named, node_named};
use pipe_model::Event;
use pipe_text::LineKind;
use pipe_topo::{NodeNames, Topology};

// A line with one of the verbs of failures.
pub fn read_failure(
    names: &NodeNames,
    topology: &Topology,
    verb: &[u8],
    words: &[&[u8]],
) -> Result<Event, LineKind>
    ensures event { result ≡ failure_event topology.now names.now verb.now (map (λ word. word.now) words.now) }
    ensures known { IfOk result (IsOfGraph topology.now) }
{
    if verb == b"crash".as_slice() {
        read_crash(names, topology, words)
    } else if verb == b"cut".as_slice() {
        read_cut(topology, words)
    } else {
        Err(LineKind::Verb)
    }
}

// `crash NODE`
fn read_crash(names: &NodeNames, topology: &Topology, words: &[&[u8]]) -> Result<Event, LineKind>
    ensures event { result ≡ crash_line topology.now names.now (map (λ word. word.now) words.now) }
    ensures known { IfOk result (IsOfGraph topology.now) }
{
    let Some(node) = one_word(words) else {
        return Err(LineKind::Count);
    };
    let Some(node) = node_named(names, topology, node) else {
        return Err(LineKind::Node);
    };
    Ok(Event::Crash { node })
}

// `cut LINK`
fn read_cut(topology: &Topology, words: &[&[u8]]) -> Result<Event, LineKind>
    ensures event { result ≡ cut_line topology.now (map (λ word. word.now) words.now) }
    ensures known { IfOk result (IsOfGraph topology.now) }
{
    let Some(link) = one_word(words) else {
        return Err(LineKind::Count);
    };
    let Some(link) = link_named(topology, link) else {
        return Err(LineKind::Link);
    };
    Ok(Event::Cut { link })
}
