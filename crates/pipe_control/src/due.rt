// Who is due and who is kept.
ghost use Rattle.std.specs.Prelude.{◌≡◌, ◌&&◌, not};
ghost use Rattle.pipe_base.specs.Failed.{is_announced};
ghost use Rattle.pipe_topo.specs.Sets.{has};

use pipe_base::{Announced, HostId, NodeId, SharedList};
use pipe_topo::HostSet;

// The node is a host that is doomed and not yet announced.
pub fn is_due(doomed: &HostSet, announced: &SharedList<Announced>, node: NodeId) -> bool
    ensures { result ≡ (has doomed.now node.0 && not (is_announced node.0 announced.now)) }
{
    doomed.has_node(node) && !is_announced(announced, node)
}

fn is_announced(announced: &SharedList<Announced>, node: NodeId) -> bool
    ensures { result ≡ is_announced node.0 announced.now }
{
    announced
        .as_slice()
        .iter()
        .any(|entry| entry.host.0 == node.0)
}

// The node is a member that is not doomed.
pub fn is_kept(members: &HostSet, doomed: &HostSet, node: NodeId) -> bool
    ensures { result ≡ (has members.now node.0 && not (has doomed.now node.0)) }
{
    members.has_node(node) && !doomed.has_node(node)
}

// The members that are not doomed.
#[tactic(auto, using(crate::proofs::KeptLaws::kept_in, crate::proofs::KeptLaws::kept_out))]
pub fn kept(members: &HostSet, doomed: &HostSet) -> HostSet
    ensures { has result ≡ (λ host. has members.now host && not (has doomed.now host)) }
{
    let members = members.copy();
    let mut kept = HostSet::none();
    for host in 0..64 {
        if members.has(HostId(host)) && !doomed.has(HostId(host)) {
            kept.insert(HostId(host));
        }
    }
    kept
}
