// A reliable scattering, whose state is its type. No type here has `Drop`, so a scattering cannot be lost.
ghost use Rattle.std.specs.Prelude.{◌≡◌, ◌<◌, ◌≤◌, ◌+◌, ◌^◌, length, map, IfOk, OnErr, OnOk};
ghost use Rattle.pipe_base.specs.Limits.{most_receivers};
ghost use Rattle.pipe_base.specs.Packets.{prepare_to, recall_to};
ghost use Rattle.pipe_base.specs.Ways.{picked, PutsAlone, with_ways};
ghost use Rattle.pipe_relsend.specs.Header.{fields_of};
ghost use Rattle.pipe_relsend.specs.Pending.{is_marked, is_open, is_waited_for, open_dests, started, with_failed, with_mark};
ghost use Rattle.pipe_relsend.specs.State.{IsAckStep, IsFailStep, IsRecallStep};

use crate::marks::{self, Marks};
use crate::resend::{Header, Origin, resend_open};
use pipe_base::{DestList, HostId, NoMemory, Noted, RECEIVER_LIMIT, Router, Step, Ts};
use std::marker::Model;

/// Some receiver has not acknowledged it. It must be spent: by `ack`, until it is prepared, or by `failed`, until it is recalled
/// or aborted.
pub struct Preparing {
    ts: Ts,
    dests: DestList,
    marks: Marks,
}

/// All receivers have acknowledged it. It must be spent: by `spend`. There is no way back.
pub struct Prepared {
    ts: Ts,
    dests: DestList,
}

/// It is taken back, as a receiver failed that had not acknowledged it. It must be spent: by `ack` and `failed`, until no
/// receiver is waited for.
pub struct Recalling {
    ts: Ts,
    dests: DestList,
    marks: Marks,
}

/// It is taken back everywhere. It must be spent: by `spend`. There is no way back.
pub struct Aborted {
    ts: Ts,
    dests: DestList,
}

/// What an acknowledgement makes of a scattering.
pub enum AckStep {
    Still(Preparing),
    Ready(Prepared),
}

/// What noted failed hosts make of a scattering.
pub enum FailStep {
    Still(Preparing),
    Recall(Recalling),
    Gone(Aborted),
}

/// What it makes of a recalled scattering that a receiver is not waited for any more.
pub enum RecallStep {
    Still(Recalling),
    Gone(Aborted),
}

impl Model for Preparing {
    ghost use Rattle.std.specs.Prelude.{false, length, take, ◌≤◌};
    ghost use Rattle.pipe_base.specs.Limits.{most_receivers};
    ghost use Rattle.pipe_relsend.specs.Pending.{Pending};

    ghost Value = { Pending };

    ghost view = { λ p. record { ts = p.ts; dests = p.dests; marks = take (length p.dests) p.marks; recalled = false } };

    ghost invariant = { λ p. length p.dests ≤ most_receivers };
}

impl Model for Recalling {
    ghost use Rattle.std.specs.Prelude.{true, length, take, ◌≤◌};
    ghost use Rattle.pipe_base.specs.Limits.{most_receivers};
    ghost use Rattle.pipe_relsend.specs.Pending.{Pending};

    ghost Value = { Pending };

    ghost view = { λ p. record { ts = p.ts; dests = p.dests; marks = take (length p.dests) p.marks; recalled = true } };

    ghost invariant = { λ p. length p.dests ≤ most_receivers };
}

impl Preparing {
    /// A scattering that nobody has acknowledged. Takes no memory.
    pub fn start(ts: Ts, dests: DestList) -> Preparing
        requires few { length dests ≤ most_receivers }
        ensures { result ≡ started ts dests }
    {
        Preparing {
            ts,
            dests,
            marks: [false; RECEIVER_LIMIT],
        }
    }

    pub fn ts(&self) -> Ts
        ensures { result ≡ self.now.ts }
    {
        self.ts
    }

    /// The receivers in listed order, and what each is sent.
    pub fn dests(&self) -> &DestList
        ensures { result.now ≡ self.now.dests }
    {
        &self.dests
    }

    /// Whether the host is a receiver that has acknowledged the scattering.
    pub fn acked(&self, host: HostId) -> bool
        ensures { result ≡ is_marked host.0 self.now }
    {
        marks::is_marked(self.dests.as_slice(), self.marks, host)
    }

    /// The scattering after an acknowledgement of this host, which counts where the host is a receiver. Takes no memory.
    pub fn ack(self, host: HostId) -> AckStep
        ensures { IsAckStep self host.0 result }
    {
        let Preparing { ts, dests, marks } = self;
        let marks = marks::with_mark(dests.as_slice(), marks, host);
        if marks::is_open(marks, dests.len()) {
            AckStep::Still(Preparing { ts, dests, marks })
        } else {
            AckStep::Ready(Prepared { ts, dests })
        }
    }

    /// The scattering as these failed hosts are noted. Where one of them is a receiver that has not acknowledged it, it is taken
    /// back: by all other receivers. Takes no memory.
    pub fn failed(self, noted: &Noted) -> FailStep
        ensures { IsFailStep self noted.now result }
    {
        let Preparing { ts, dests, marks } = self;
        if !marks::has_lost(dests.as_slice(), marks, noted) {
            return FailStep::Still(Preparing { ts, dests, marks });
        }
        let marks = marks::with_failed(dests.as_slice(), [false; RECEIVER_LIMIT], noted);
        if marks::is_open(marks, dests.len()) {
            FailStep::Recall(Recalling { ts, dests, marks })
        } else {
            FailStep::Gone(Aborted { ts, dests })
        }
    }

    /// Puts the message again to each receiver that has not acknowledged it.
    pub(crate) fn resend<R: Router>(
        &self,
        origin: Origin,
        routes: &R,
        step: &mut Step,
    ) -> Result<(), NoMemory>
        requires room { step.old.unrouted + most_receivers < 2 ^ 32 }
        ensures ok { OnOk result (step.new ≡ with_ways (picked (R.links routes.now)) (map (prepare_to origin.src self.now.ts (fields_of origin)) (open_dests self.now.dests self.now.marks)) step.old) }
        ensures most { step.new.unrouted ≤ step.old.unrouted + most_receivers }
        ensures err { OnErr result (PutsAlone step.old step.new) }
    {
        let ts = self.ts;
        let header = Header {
            origin,
            ts,
            recalls: false,
        };
        let acked = self.marks;
        resend_open(self.dests.as_slice(), acked, header, routes, step)
    }

    /// A copy for a copy of the sender.
    pub(crate) fn try_clone(&self) -> Result<Preparing, NoMemory>
        ensures { IfOk result (λ copy. copy ≡ self.now) }
    {
        Ok(Preparing {
            ts: self.ts,
            dests: copy_dests(&self.dests)?,
            marks: self.marks,
        })
    }

    /// The end of a scattering that is not settled: its sender ends, or it was never sent.
    pub(crate) fn end(self) {
        let Preparing {
            ts: _,
            dests: _,
            marks: _,
        } = self;
    }
}

impl Prepared {
    pub fn ts(&self) -> Ts
        ensures { result ≡ self.now.ts }
    {
        self.ts
    }

    /// The receivers in listed order, and what each was sent.
    pub fn dests(&self) -> &DestList
        ensures { result.now ≡ self.now.dests }
    {
        &self.dests
    }

    /// The scattering is settled: all receivers hold it. Takes no memory.
    pub fn spend(self) {
        let Prepared { ts: _, dests: _ } = self;
    }
}

impl Recalling {
    pub fn ts(&self) -> Ts
        ensures { result ≡ self.now.ts }
    {
        self.ts
    }

    /// The receivers in listed order, and what each was sent.
    pub fn dests(&self) -> &DestList
        ensures { result.now ≡ self.now.dests }
    {
        &self.dests
    }

    /// Whether the host is a receiver that is waited for: it is not noted as failed, and has not told that it took the
    /// scattering back.
    pub fn awaits(&self, host: HostId) -> bool
        ensures { result ≡ is_waited_for host.0 self.now }
    {
        marks::is_waited_for(self.dests.as_slice(), self.marks, host)
    }

    /// The scattering after this host told that it took it back. Takes no memory.
    pub fn ack(self, host: HostId) -> RecallStep
        ensures { IsRecallStep self (with_mark host.0 self) result }
    {
        let Recalling { ts, dests, marks } = self;
        let marks = marks::with_mark(dests.as_slice(), marks, host);
        if marks::is_open(marks, dests.len()) {
            RecallStep::Still(Recalling { ts, dests, marks })
        } else {
            RecallStep::Gone(Aborted { ts, dests })
        }
    }

    /// The scattering as these failed hosts are noted, which are not waited for. Takes no memory.
    pub fn failed(self, noted: &Noted) -> RecallStep
        ensures { IsRecallStep self (with_failed noted.now self) result }
    {
        let Recalling { ts, dests, marks } = self;
        let marks = marks::with_failed(dests.as_slice(), marks, noted);
        if marks::is_open(marks, dests.len()) {
            RecallStep::Still(Recalling { ts, dests, marks })
        } else {
            RecallStep::Gone(Aborted { ts, dests })
        }
    }

    /// Puts a recall to each receiver that is waited for.
    pub(crate) fn resend<R: Router>(
        &self,
        origin: Origin,
        routes: &R,
        step: &mut Step,
    ) -> Result<(), NoMemory>
        requires room { step.old.unrouted + most_receivers < 2 ^ 32 }
        ensures ok { OnOk result (step.new ≡ with_ways (picked (R.links routes.now)) (map (recall_to origin.src self.now.ts (fields_of origin)) (open_dests self.now.dests self.now.marks)) step.old) }
        ensures most { step.new.unrouted ≤ step.old.unrouted + most_receivers }
        ensures err { OnErr result (PutsAlone step.old step.new) }
    {
        let ts = self.ts;
        let header = Header {
            origin,
            ts,
            recalls: true,
        };
        let answered = self.marks;
        resend_open(self.dests.as_slice(), answered, header, routes, step)
    }

    /// A copy for a copy of the sender.
    pub(crate) fn try_clone(&self) -> Result<Recalling, NoMemory>
        ensures { IfOk result (λ copy. copy ≡ self.now) }
    {
        Ok(Recalling {
            ts: self.ts,
            dests: copy_dests(&self.dests)?,
            marks: self.marks,
        })
    }

    /// The end of a scattering that is not settled, as its sender ends.
    pub(crate) fn end(self) {
        let Recalling {
            ts: _,
            dests: _,
            marks: _,
        } = self;
    }
}

impl Aborted {
    pub fn ts(&self) -> Ts
        ensures { result ≡ self.now.ts }
    {
        self.ts
    }

    /// The receivers in listed order, and what each was sent.
    pub fn dests(&self) -> &DestList
        ensures { result.now ≡ self.now.dests }
    {
        &self.dests
    }

    /// The scattering is settled: no receiver delivers it. Takes no memory.
    pub fn spend(self) {
        let Aborted { ts: _, dests: _ } = self;
    }
}

fn copy_dests(list: &DestList) -> Result<DestList, NoMemory>
    ensures { IfOk result (λ copy. copy ≡ list.now) }
{
    Ok(list.clone()?)
}
