// The messages of a scattering.
ghost use Rattle.std.specs.Prelude.{◌≡◌, ◌+◌, ◌<◌, ◌^◌, length, map, IfOk, OnErr, OnOk};
ghost use Rattle.pipe_base.specs.Packets.{sent_to};
ghost use Rattle.pipe_base.specs.Ways.{picked, PutsAlone, with_ways};

use pipe_base::{Dest, DestList, HostId, NoMemory, Packet, PacketKind, Router, Service, Step, Ts};

/// Puts a message of the service to each receiver on its way, in listed order, under the stamp `ts` and with this commit
/// barrier. The best-effort barrier of these packets is their stamp.
pub fn scatter<R: Router>(
    service: Service,
    dests: &DestList,
    src: HostId,
    ts: Ts,
    commit: Ts,
    routes: &R,
    step: &mut Step,
) -> Result<(), NoMemory>
    requires room { step.old.unrouted + length dests.now < 2 ^ 32 }
    ensures ok { OnOk result (step.new ≡ with_ways (picked (R.links routes.now)) (map (sent_to service src ts (record { be = ts.0; commit = commit.0 })) dests.now) step.old) }
    ensures err { OnErr result (PutsAlone step.old step.new) }
{
    step.put.reserve(dests.len())?;
    'dests: for dest in dests.as_slice() {
        let packet = message(service, src, ts, commit, dest)?;
        step.put_on_way(routes, packet)?;
    }
    Ok(())
}

fn message(
    service: Service,
    src: HostId,
    ts: Ts,
    commit: Ts,
    dest: &Dest,
) -> Result<Packet, NoMemory>
    ensures { IfOk result (λ packet. packet ≡ sent_to service src ts (record { be = ts.0; commit = commit.0 }) dest.now) }
{
    let (dst, body) = dest;
    let body = body.try_clone()?;
    let kind = match service {
        Service::BestEffort => PacketKind::Plain,
        Service::Reliable => PacketKind::Prepare,
    };
    Ok(Packet {
        kind,
        src,
        dst: *dst,
        ts,
        be: ts,
        commit,
        body,
    })
}
