// How a host works out a send.
ghost use Rattle.std.specs.Prelude.{◌≡◌, ◌+◌, ◌<◌, ◌≤◌, List, Some, false, length, map, IfErr, IfOk, OnErr, OnOk};
ghost use Rattle.pipe_base.specs.declared.name.HostId.{HostId as AHost};
ghost use Rattle.pipe_graph.specs.Graph.{Graph};
ghost use Rattle.pipe_base.specs.Limits.{most_receivers};
ghost use Rattle.pipe_base.specs.Packets.{sent_to};
ghost use Rattle.pipe_base.specs.Ways.{picked, with_ways};
ghost use Rattle.pipe_base.specs.Step.{quiet_step};
ghost use Rattle.pipe_model.specs.declared.record.Record.{Record};
ghost use Rattle.pipe_model.specs.OwnOutcome.{first_failed};
ghost use Rattle.pipe_host.specs.Host.{Stands, Works};
ghost use Rattle.pipe_host.specs.Sending.{IsRefused, IsStamped, begun_by, is_full, promise_with};
ghost use Rattle.pipe_model.specs.Records.{sent};

use crate::host::Host;
use pipe_base::{
    Dest, DestList, HostId, KeptStep, NoMemory, Noted, Outcome, Service, Step, Ts, UNSETTLED_LIMIT,
};
use pipe_clock::{ClockEnd, scatter};
use pipe_relsend::{Sender, Window};

/// A send that is not refused: its stamp, and what the host promises after it.
#[derive(Clone, Copy)]
pub(crate) struct Stamp {
    ts: Ts,
    promise: Ts,
}

impl Host {
    /// Works out what a send does: a message to each receiver under one stamp, or a refusal where a receiver is noted as
    /// failed, the window is full or the clock is at its end. Nothing changes but that a reliable scattering is begun.
    pub fn work_send(
        &mut self,
        service: Service,
        now: Ts,
        dests: &DestList,
    ) -> Result<KeptStep, NoMemory>
        requires some { 0 < length dests.now }
        requires few { length dests.now ≤ most_receivers }
        ensures ok { IfOk result (λ step. (graph : Graph) (host : AHost) (own : List Record)
            → Stands graph host.0 own self.old
            → Works graph host.0 own (sent host service now dests.now step) self.new) }
        ensures err { OnErr result (self.new ≡ self.old) }
    {
        match self.stamp(service, now, dests) {
            Ok(stamp) => {
                let step = self.messages(service, stamp, dests)?;
                begin(&mut self.sender, service, stamp.ts, dests)?;
                Ok(step)
            }
            Err(refusal) => Ok(KeptStep::quiet(refusal)),
        }
    }

    /// Stamps a send that reads `now`, or answers its first refusal.
    fn stamp(&self, service: Service, now: Ts, dests: &DestList) -> Result<Stamp, Outcome>
        ensures ok { IfOk result (IsStamped self.now service now dests.now) }
        ensures err { IfErr result (IsRefused self.now service now dests.now) }
    {
        if let Some(host) = first_failed(self.held.noted(), dests.as_slice()) {
            return Err(Outcome::DestFailed { host });
        }
        if is_full(&self.sender, service) {
            return Err(Outcome::Window {
                count: UNSETTLED_LIMIT as u16,
            });
        }
        let mut clock = self.clock;
        match clock.stamp(now) {
            Ok(ts) => {
                let promise = promise_with(&self.sender, service, ts, clock.next());
                Ok(Stamp { ts, promise })
            }
            Err(ClockEnd { next }) => Err(Outcome::ClockEnd { next }),
        }
    }

    /// The step with a message to each receiver.
    fn messages(
        &self,
        service: Service,
        stamp: Stamp,
        dests: &DestList,
    ) -> Result<KeptStep, NoMemory>
        requires few { length dests.now ≤ most_receivers }
        ensures { IfOk result (λ step. step ≡ with_ways (picked self.now.links.ways.routes.links)
            (map (sent_to service (record { 0 = self.now.links.node.0 }) stamp.ts (record { be = stamp.ts.0; commit = stamp.promise.0 })) dests.now)
            (record (quiet_step Outcome.Ok) { stamped = Some stamp.ts })) }
    {
        let mut step = Step::new(self.alloc);
        step.stamped = Some(stamp.ts);
        let src = HostId(self.links.node().0);
        let routes = self.links.routes();
        scatter(
            service,
            dests,
            src,
            stamp.ts,
            stamp.promise,
            routes,
            &mut step,
        )?;
        step.keep(self.alloc)
    }
}

/// The first of the receivers that is noted as failed.
fn first_failed(noted: &Noted, dests: &[Dest]) -> Option<HostId>
    ensures { result ≡ first_failed noted.now dests.now }
{
    'dests: for (host, _) in dests {
        if noted.has(*host) {
            return Some(*host);
        }
    }
    None
}

/// Whether a send of the service finds the window full.
fn is_full(sender: &Sender, service: Service) -> bool
    ensures { result ≡ is_full service sender.now }
{
    match service {
        Service::BestEffort => false,
        Service::Reliable => sender.unsettled() as usize >= UNSETTLED_LIMIT,
    }
}

/// What is promised after a send with this stamp, where `next` is the next timestamp.
fn promise_with(sender: &Sender, service: Service, stamp: Ts, next: Ts) -> Ts
    requires { next.0 ≡ stamp.0 + 1 }
    ensures { result.0 ≡ promise_with service stamp.0 sender.now }
{
    match service {
        Service::BestEffort => sender.promise(next),
        Service::Reliable => sender.promise(stamp),
    }
}

/// Begins the scattering of a send, where it is reliable.
fn begin(sender: &mut Sender, service: Service, ts: Ts, dests: &DestList) -> Result<(), NoMemory>
    requires room { is_full service sender.old ≡ false }
    requires some { 0 < length dests.now }
    requires few { length dests.now ≤ most_receivers }
    ensures ok { OnOk result (sender.new ≡ begun_by service ts dests.now sender.old) }
    ensures err { OnErr result (sender.new ≡ sender.old) }
{
    if let Service::Reliable = service {
        let copy = copy_of(dests)?;
        match sender.begin(ts, copy) {
            Ok(()) => {}
            Err(Window { .. }) => unreachable!(),
        }
    }
    Ok(())
}

fn copy_of(dests: &DestList) -> Result<DestList, NoMemory>
    ensures { IfOk result (λ copy. copy ≡ dests.now) }
{
    Ok(dests.clone()?)
}
