// The sender of best-effort scatterings.
ghost use Rattle.std.specs.Prelude.{◌≡◌, ◌+◌, ◌<◌, ◌^◌, length, map, OnErr, OnOk};
ghost use Rattle.pipe_base.specs.Packets.{message_to};
ghost use Rattle.pipe_base.specs.Ways.{picked, PutsAlone, with_ways};

use crate::messages::scatter;
use pipe_base::{DestList, HostId, NoMemory, Router, Service, Step, Ts};

/// Sends scatterings that nobody acknowledges. It keeps nothing.
pub struct BeSend;

impl BeSend {
    /// Puts a message to each receiver on its way, in listed order, under the stamp `ts` and with this commit barrier. The
    /// best-effort barrier of these packets is their stamp.
    pub fn send<R: Router>(
        dests: &DestList,
        src: HostId,
        ts: Ts,
        commit: Ts,
        routes: &R,
        step: &mut Step,
    ) -> Result<(), NoMemory>
        requires room { step.old.unrouted + length dests.now < 2 ^ 32 }
        ensures ok { OnOk result (step.new ≡ with_ways (picked (R.links routes.now)) (map (message_to src ts (record { be = ts.0; commit = commit.0 })) dests.now) step.old) }
        ensures err { OnErr result (PutsAlone step.old step.new) }
    {
        scatter(Service::BestEffort, dests, src, ts, commit, routes, step)
    }
}
