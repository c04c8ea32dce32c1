// The hosts, nodes and links that words name.
ghost use Rattle.std.specs.Prelude.{◌≡◌, ◌<◌, length, IfSome, Some};
ghost use Rattle.std.specs.Option.{option_map};
ghost use Rattle.pipe_text_schedule.specs.Named.{below, host_in, node_in, link_in};

use pipe_base::{HostId, LinkId, NodeId};
use pipe_text::read_number;
use pipe_topo::{NodeNames, Topology};

/// The last link that a word can name.
pub const LAST_LINK: u64 = 65535;

pub fn host_named(names: &NodeNames, topology: &Topology, word: &[u8]) -> Option<HostId>
    ensures host { option_map (λ host. host.0) result ≡ host_in topology.now names.now word.now }
    ensures known { IfSome result (λ host. host.0 < topology.now.hosts) }
{
    match names.number(word) {
        Some(at) if at < usize::from(topology.hosts()) => Some(HostId(at as u16)),
        _ => None,
    }
}

// A host, or a half of a switch.
pub fn node_named(names: &NodeNames, topology: &Topology, word: &[u8]) -> Option<NodeId>
    ensures node { option_map (λ node. node.0) result ≡ node_in topology.now names.now word.now }
    ensures known { IfSome result (λ node. node.0 < topology.now.nodes) }
{
    match names.number(word) {
        Some(at) if at < usize::from(topology.nodes()) => Some(NodeId(at as u16)),
        _ => None,
    }
}

// A link is named by its number.
pub fn link_named(topology: &Topology, word: &[u8]) -> Option<LinkId>
    ensures link { option_map (λ link. link.0) result ≡ link_in topology.now word.now }
    ensures known { IfSome result (λ link. link.0 < length topology.now.links) }
{
    link_numbered(topology, read_number(word, LAST_LINK)?)
}

pub fn link_numbered(topology: &Topology, number: u64) -> Option<LinkId>
    ensures link { option_map (λ link. link.0) result ≡ below (length topology.now.links) (Some number) }
    ensures known { IfSome result (λ link. link.0 < length topology.now.links) }
{
    if number < u64::from(topology.links()) {
        Some(LinkId(number as u16))
    } else {
        None
    }
}
