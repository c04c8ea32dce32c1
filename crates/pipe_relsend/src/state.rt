// A reliable scattering that is not settled, in one of its two states.
ghost use Rattle.std.specs.Prelude.{◌≡◌, ◌<◌, ◌≤◌, ◌+◌, ◌^◌, false, is_some, true, IfOk, OnErr, OnOk};
ghost use Rattle.pipe_base.specs.Limits.{most_receivers};
ghost use Rattle.pipe_base.specs.Ways.{picked, PutsAlone, with_ways};
ghost use Rattle.pipe_relsend.specs.Header.{fields_of};
ghost use Rattle.pipe_relsend.specs.Pending.{Pending, owed};
ghost use Rattle.pipe_relsend.specs.State.{IsRecallStep, after_answer, after_note, where_open};

use crate::resend::Origin;
use crate::{AckStep, FailStep, Preparing, RecallStep, Recalling};
use pipe_base::{HostId, NoMemory, Noted, Router, Step, Ts};
use std::marker::Model;

/// What a receiver answers: that it holds the message, or that it took it back.
#[derive(Clone, Copy)]
pub enum Answer {
    Ack,
    RecallAck,
}

/// The two states of a scattering that is not settled.
enum State {
    Preparing(Preparing),
    Recalling(Recalling),
}

/// A scattering that is not settled.
pub struct Unsettled {
    state: State,
}

impl Model for Unsettled {
    ghost use Rattle.pipe_relsend.specs.Pending.{Pending};
    ghost use Rattle.pipe_relsend.specs.State.{pending_of};

    ghost Value = { Pending };

    ghost view = { λ u. pending_of u.state };
}

impl Unsettled {
    /// A scattering that is begun.
    pub fn begun(preparing: Preparing) -> Unsettled
        ensures { result ≡ record preparing { recalled = false } }
    {
        let state = State::Preparing(preparing);
        Unsettled { state }
    }

    fn recalled(recalling: Recalling) -> Unsettled
        ensures { result ≡ record recalling { recalled = true } }
    {
        let state = State::Recalling(recalling);
        Unsettled { state }
    }

    pub fn ts(&self) -> Ts
        ensures { result ≡ self.now.ts }
    {
        match &self.state {
            State::Preparing(preparing) => preparing.ts(),
            State::Recalling(recalling) => recalling.ts(),
        }
    }

    /// Whether it is taken back.
    pub fn is_recalled(&self) -> bool
        ensures { result ≡ self.now.recalled }
    {
        matches!(self.state, State::Recalling(_))
    }

    /// The scattering after an answer of this host, unless it is settled by that. An answer of the other kind changes nothing.
    pub fn answer(self, answer: Answer, host: HostId) -> Option<Unsettled>
        ensures { result ≡ after_answer answer host.0 self }
    {
        let Unsettled { state } = self;
        match (state, answer) {
            (State::Preparing(preparing), Answer::Ack) => acked(preparing, host),
            (State::Recalling(recalling), Answer::RecallAck) => left(recalling.ack(host)),
            (state, _) => Some(Unsettled { state }),
        }
    }

    /// The scattering as these failed hosts are noted, unless it is settled by that.
    pub fn note(self, noted: &Noted) -> Option<Unsettled>
        ensures { result ≡ after_note noted.now self }
    {
        let Unsettled { state } = self;
        match state {
            State::Preparing(preparing) => failed(preparing, noted),
            State::Recalling(recalling) => left(recalling.failed(noted)),
        }
    }

    /// Puts again what is owed to the receivers that have not answered.
    pub fn resend<R: Router>(
        &self,
        origin: Origin,
        routes: &R,
        step: &mut Step,
    ) -> Result<(), NoMemory>
        requires room { step.old.unrouted + most_receivers < 2 ^ 32 }
        ensures ok { OnOk result (step.new ≡ with_ways (picked (R.links routes.now)) (owed origin.src (fields_of origin) self.now) step.old) }
        ensures most { step.new.unrouted ≤ step.old.unrouted + most_receivers }
        ensures err { OnErr result (PutsAlone step.old step.new) }
    {
        match &self.state {
            State::Preparing(preparing) => preparing.resend(origin, routes, step),
            State::Recalling(recalling) => recalling.resend(origin, routes, step),
        }
    }

    /// A copy for a copy of the sender.
    pub fn try_clone(&self) -> Result<Unsettled, NoMemory>
        ensures { IfOk result (λ copy. copy ≡ self.now) }
    {
        match &self.state {
            State::Preparing(preparing) => Ok(Unsettled::begun(preparing.try_clone()?)),
            State::Recalling(recalling) => Ok(Unsettled::recalled(recalling.try_clone()?)),
        }
    }

    /// The end of a scattering that is not settled: its sender ends, or it was never sent.
    pub fn end(self) {
        let Unsettled { state } = self;
        match state {
            State::Preparing(preparing) => preparing.end(),
            State::Recalling(recalling) => recalling.end(),
        }
    }
}

fn acked(preparing: Preparing, host: HostId) -> Option<Unsettled>
    ensures { result ≡ after_answer Answer.Ack host.0 (record preparing { recalled = false }) }
{
    match preparing.ack(host) {
        AckStep::Still(preparing) => Some(Unsettled::begun(preparing)),
        AckStep::Ready(prepared) => {
            prepared.spend();
            None
        }
    }
}

fn failed(preparing: Preparing, noted: &Noted) -> Option<Unsettled>
    ensures { result ≡ after_note noted.now (record preparing { recalled = false }) }
{
    match preparing.failed(noted) {
        FailStep::Still(preparing) => Some(Unsettled::begun(preparing)),
        FailStep::Recall(recalling) => Some(Unsettled::recalled(recalling)),
        FailStep::Gone(aborted) => {
            aborted.spend();
            None
        }
    }
}

/// What is left of a recalled scattering.
fn left(step: RecallStep) -> Option<Unsettled>
    ensures { (old more : Pending) → IsRecallStep old more step
        → result ≡ where_open (record more { recalled = true }) }
{
    match step {
        RecallStep::Still(recalling) => Some(Unsettled::recalled(recalling)),
        RecallStep::Gone(aborted) => {
            aborted.spend();
            None
        }
    }
}
