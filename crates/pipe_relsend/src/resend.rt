// The packets of a scattering that are put again.
ghost use Rattle.std.specs.Prelude.{◌≡◌, ◌<◌, ◌≤◌, ◌+◌, ◌^◌, ◌∷◌, [], length, map, IfOk, OnErr, OnOk};
ghost use Rattle.pipe_base.specs.Limits.{most_receivers};
ghost use Rattle.pipe_base.specs.Ways.{picked, PutsAlone, with_ways};
ghost use Rattle.pipe_relsend.specs.Pending.{open_dests};
ghost use Rattle.pipe_relsend.specs.Header.{packet_again};

use crate::marks::Marks;
use pipe_base::{Body, Dest, HostId, NoMemory, Packet, PacketKind, Router, Step, Ts};
use std::alloc::Global;

/// What all packets have in common that a host puts in one step.
#[derive(Clone, Copy)]
pub struct Origin {
    pub alloc: Global,
    pub src: HostId,
    pub be: Ts,
    pub commit: Ts,
}

/// What the packets of one scattering have in common: they are its messages, or their recalls.
#[derive(Clone, Copy)]
pub struct Header {
    pub origin: Origin,
    pub ts: Ts,
    pub recalls: bool,
}

/// Puts the packet to each receiver that is not marked, in listed order.
pub fn resend_open<R: Router>(
    dests: &[Dest],
    marks: Marks,
    header: Header,
    routes: &R,
    step: &mut Step,
) -> Result<(), NoMemory>
    requires few { length dests.now ≤ most_receivers }
    requires room { step.old.unrouted + most_receivers < 2 ^ 32 }
    ensures ok { OnOk result (step.new ≡ with_ways (picked (R.links routes.now)) (map (packet_again header) (open_dests dests.now marks)) step.old) }
    ensures most { step.new.unrouted ≤ step.old.unrouted + length dests.now }
    ensures err { OnErr result (PutsAlone step.old step.new) }
{
    for at in 0..dests.len() {
        if !marks[at] {
            resend_one(header, &dests[at], routes, step)?;
        }
    }
    Ok(())
}

fn resend_one<R: Router>(
    header: Header,
    dest: &Dest,
    routes: &R,
    step: &mut Step,
) -> Result<(), NoMemory>
    requires room { step.old.unrouted + 1 < 2 ^ 32 }
    ensures ok { OnOk result (step.new ≡ with_ways (picked (R.links routes.now)) (packet_again header dest.now ∷ []) step.old) }
    ensures most { step.new.unrouted ≤ step.old.unrouted + 1 }
    ensures err { OnErr result (step.new ≡ step.old) }
{
    let packet = packet_again(header, dest)?;
    step.put_on_way(routes, packet)
}

fn packet_again(header: Header, dest: &Dest) -> Result<Packet, NoMemory>
    ensures { IfOk result (λ packet. packet ≡ packet_again header dest.now) }
{
    let Header {
        origin,
        ts,
        recalls,
    } = header;
    let (dst, body) = dest;
    let (kind, body) = if recalls {
        (PacketKind::Recall, Body::empty(origin.alloc))
    } else {
        (PacketKind::Prepare, body.try_clone()?)
    };
    Ok(Packet {
        kind,
        src: origin.src,
        dst: *dst,
        ts,
        be: origin.be,
        commit: origin.commit,
        body,
    })
}
