// The sender: the reliable scatterings of one host that are not settled.
ghost use Rattle.std.specs.Prelude.{◌≡◌, ◌<◌, ◌≤◌, ◌+◌, ◌-◌, ◌^◌, ◌↔◌, ◌++◌, ◌∷◌, [], ℕ, List, length, flat_map, insert, vec_len, vec_capacity, IfErr, IfOk, IsOk, MatchOption, OnErr, OnOk, All, ◌≢◌};
ghost use Rattle.std.specs.List.{list_any};
ghost use Rattle.pipe_base.specs.Limits.{most_receivers, most_unsettled};
ghost use Rattle.pipe_base.specs.Promise.{promise_of};
ghost use Rattle.pipe_base.specs.Resends.{resends};
ghost use Rattle.pipe_base.specs.Scattering.{Scattering, SenderCall, Acked, Began, IsAboveBegun, RecallAcked, Noted as HasNoted};
ghost use Rattle.pipe_base.specs.Settled.{is_recalled, unsettled};
ghost use Rattle.pipe_base.specs.Ways.{picked, PutsAlone, with_ways};
ghost use Rattle.pipe_relsend.specs.Header.{fields_of};
ghost use Rattle.pipe_relsend.specs.Pending.{Pending, owed, started};
ghost use Rattle.pipe_relsend.specs.Sending.{IsPlaceOf, KnowsAll, Stands, after_ack, after_recall_ack, answered, first_or, noted};

use crate::Preparing;
use crate::resend::Origin;
use crate::state::{Answer, Unsettled};
use pipe_base::{DestList, HostId, NoMemory, Noted, Router, Step, Ts, UNSETTLED_LIMIT};
use std::alloc::{AllocFailed, Global};
use std::marker::Model;

/// The reliable scatterings that are not settled, in the order begun. Room for as many as there may be is taken at the start.
///
/// A host asks first what it promises and puts again (`promise`, `resends`), which changes nothing. A scattering that was begun
/// for a step that is refused is undone by `unbegin`. Otherwise a scattering leaves by being settled alone; where the sender
/// itself is dropped, those that it still has end with it.
pub struct Sender {
    alloc: Global,
    pending: Vec<Unsettled>,
}

/// As many scatterings are not settled as there may be. The list comes back.
#[derive(Debug, Drop)]
pub struct Window {
    pub dests: DestList,
}

impl Model for Sender {
    ghost use Rattle.std.specs.Prelude.{List, length, vec_capacity, ◌≤◌};
    ghost use Rattle.pipe_base.specs.Limits.{most_unsettled};
    ghost use Rattle.pipe_relsend.specs.Pending.{Pending};

    ghost Value = { List Pending };

    ghost view = { λ s. s.pending.items };

    ghost invariant = { λ s. (length s.pending.items ≤ most_unsettled) × (most_unsettled ≤ vec_capacity s.pending) };
}

impl Drop for Sender {
    fn drop(self) {
        let Sender {
            alloc: _,
            mut pending,
        } = self;
        while let Some(unsettled) = pending.pop() {
            unsettled.end();
        }
        pending.destroy_empty();
    }
}

impl Sender {
    pub fn new(alloc: Global) -> Result<Sender, NoMemory>
        ensures value { IfOk result (λ sender. sender ≡ []) }
        ensures stands { IfOk result (Stands []) }
    {
        Ok(Sender {
            alloc,
            pending: Vec::with_capacity(alloc, UNSETTLED_LIMIT)?,
        })
    }

    /// Begins a scattering. Takes no memory.
    pub fn begin(&mut self, ts: Ts, dests: DestList) -> Result<(), Window>
        requires some { 0 < length dests }
        requires few { length dests ≤ most_receivers }
        ensures exact { IsOk result ↔ length self.old < most_unsettled }
        ensures ok { OnOk result (self.new ≡ self.old ++ started ts dests ∷ []) }
        ensures stands { OnOk result ((calls : List SenderCall) → Stands calls self.old → IsAboveBegun ts.0 calls
            → Stands (Began (record { ts = ts; dests = dests }) ∷ calls) self.new) }
        ensures back { IfErr result (λ window. window.dests ≡ dests) }
        ensures err { OnErr result (self.new ≡ self.old) }
    {
        if self.pending.len() >= UNSETTLED_LIMIT {
            return Err(Window { dests });
        }
        let preparing = Preparing::start(ts, dests);
        self.pending.push_reserved(Unsettled::begun(preparing));
        Ok(())
    }

    /// Undoes the last `begin`, for a step that is refused. Takes no memory.
    pub fn unbegin(&mut self)
        ensures undoes { (before : List Pending) (last : Pending) → self.old ≡ before ++ last ∷ [] → self.new ≡ before }
        ensures stands { (calls : List SenderCall) (s : Scattering) → Stands (Began s ∷ calls) self.old
            → 0 < length s.dests → Stands calls self.new }
    {
        if let Some(unsettled) = self.pending.pop() {
            unsettled.end();
        }
    }

    /// A host has acknowledged the scattering with this timestamp, which counts where that is not recalled. Takes no memory.
    pub fn ack(&mut self, ts: Ts, host: HostId)
        ensures value { self.new ≡ after_ack ts.0 host.0 self.old }
        ensures stands { (calls : List SenderCall) → Stands calls self.old
            → Stands (Acked ts.0 host.0 ∷ calls) self.new }
    {
        answer_among(&mut self.pending, Answer::Ack, ts, host);
    }

    /// A host has told that it took the scattering with this timestamp back, which counts where that is recalled. Takes no
    /// memory.
    pub fn recall_ack(&mut self, ts: Ts, host: HostId)
        ensures value { self.new ≡ after_recall_ack ts.0 host.0 self.old }
        ensures stands { (calls : List SenderCall) → Stands calls self.old
            → Stands (RecallAcked ts.0 host.0 ∷ calls) self.new }
    {
        answer_among(&mut self.pending, Answer::RecallAck, ts, host);
    }

    /// These are all failed hosts that are noted now: each scattering that one of them has not acknowledged is taken back, and no
    /// recalled one waits for them. Takes no memory.
    pub fn note(&mut self, failed: &Noted)
        ensures value { self.new ≡ noted failed.now self.old }
        ensures stands { (calls : List SenderCall) → Stands calls self.old → KnowsAll failed.now calls
            → Stands (HasNoted failed.now ∷ calls) self.new }
    {
        note_among(&mut self.pending, failed);
    }

    /// The least timestamp of a scattering that is not settled, or `next` where there is none. So with a stamp for `next` it is
    /// the promise once a scattering under that stamp is begun. Takes no memory.
    pub fn promise(&self, next: Ts) -> Ts
        ensures value { result.0 ≡ first_or next.0 self.now }
        ensures stands { (calls : List SenderCall) → Stands calls self.now → result.0 ≡ promise_of next.0 calls }
        ensures begun { (calls : List SenderCall) (s : Scattering) → Stands calls self.now → IsAboveBegun s.ts.0 calls
            → 0 < length s.dests
            → s.ts ≡ next → (later : ℕ) → result.0 ≡ promise_of later (Began s ∷ calls) }
    {
        first_ts(self.pending.as_slice(), next)
    }

    /// Whether some scattering is recalled and waits for a receiver.
    pub fn is_recalling(&self) -> bool
        ensures value { result ≡ list_any (λ p. p.recalled) self.now }
        ensures stands { (calls : List SenderCall) → Stands calls self.now
            → result ≡ list_any (λ s. is_recalled calls s) (unsettled calls) }
    {
        any_recalled(self.pending.as_slice())
    }

    /// How many scatterings are not settled.
    pub fn unsettled(&self) -> u16
        ensures value { result ≡ length self.now }
        ensures few { result ≤ most_unsettled }
        ensures stands { (calls : List SenderCall) → Stands calls self.now → result ≡ length (unsettled calls) }
    {
        self.pending.len() as u16
    }

    /// Puts again the messages, and the recalls of those taken back, for which an answer is missing, with the host's next
    /// timestamp and promise. Nothing changes here.
    pub fn resends<R: Router>(
        &self,
        src: HostId,
        next: Ts,
        routes: &R,
        step: &mut Step,
    ) -> Result<(), NoMemory>
        requires room { step.old.unrouted < 2 ^ 32 - 256 }
        ensures ok { OnOk result (step.new ≡ with_ways (picked (R.links routes.now)) (flat_map (owed src (record { be = next.0; commit = first_or next.0 self.now })) self.now) step.old) }
        ensures stands { OnOk result ((calls : List SenderCall) → Stands calls self.now
            → step.new ≡ with_ways (picked (R.links routes.now)) (resends calls src (record { be = next.0; commit = promise_of next.0 calls })) step.old) }
        ensures err { OnErr result (PutsAlone step.old step.new) }
    {
        let commit = self.promise(next);
        let origin = Origin {
            alloc: self.alloc,
            src,
            be: next,
            commit,
        };
        resend_all(self.pending.as_slice(), origin, routes, step)
    }

    pub fn try_clone(&self) -> Result<Sender, NoMemory>
        ensures { IfOk result (λ copy. copy ≡ self.now) }
    {
        let mut copy = Sender::new(self.alloc)?;
        copy_all(self.pending.as_slice(), &mut copy.pending)?;
        Ok(copy)
    }
}

/// The first place of a scattering with this timestamp.
fn place_of(pending: &[Unsettled], ts: Ts) -> Option<usize>
    ensures { MatchOption result (All (λ p. p.ts.0 ≢ ts.0) pending.now) (IsPlaceOf ts.0 pending.now) }
{
    for at in 0..pending.len() {
        if pending[at].ts().0 == ts.0 {
            return Some(at);
        }
    }
    None
}

fn any_recalled(pending: &[Unsettled]) -> bool
    ensures { result ≡ list_any (λ p. p.recalled) pending.now }
{
    pending.iter().any(|unsettled| unsettled.is_recalled())
}

fn first_ts(pending: &[Unsettled], next: Ts) -> Ts
    ensures { result.0 ≡ first_or next.0 pending.now }
{
    match pending.first() {
        Some(first) => first.ts(),
        None => next,
    }
}

/// An answer: the scattering stays at its place, or is settled.
fn answer_among(pending: &mut Vec<Unsettled>, answer: Answer, ts: Ts, host: HostId)
    ensures items { pending.new.items ≡ answered answer ts.0 host.0 pending.old.items }
    ensures fewer { vec_len pending.new ≤ vec_len pending.old }
    ensures capacity { vec_capacity pending.new ≡ vec_capacity pending.old }
{
    let Some(at) = place_of(pending.as_slice(), ts) else {
        return;
    };
    let unsettled = pending.remove(at);
    match unsettled.answer(answer, host) {
        Some(unsettled) => put_back(pending, at, unsettled),
        None => {}
    }
}

/// Failed hosts are noted: each scattering stays at its place, or is settled.
fn note_among(pending: &mut Vec<Unsettled>, failed: &Noted)
    ensures items { pending.new.items ≡ noted failed.now pending.old.items }
    ensures fewer { vec_len pending.new ≤ vec_len pending.old }
    ensures capacity { vec_capacity pending.new ≡ vec_capacity pending.old }
{
    let mut at = 0;
    'places: while at < pending.len() {
        let unsettled = pending.remove(at);
        match unsettled.note(failed) {
            Some(unsettled) => {
                put_back(pending, at, unsettled);
                at += 1;
            }
            None => {}
        }
    }
}

fn resend_all<R: Router>(
    pending: &[Unsettled],
    origin: Origin,
    routes: &R,
    step: &mut Step,
) -> Result<(), NoMemory>
    requires few { length pending.now ≤ most_unsettled }
    requires room { step.old.unrouted < 2 ^ 32 - 256 }
    ensures ok { OnOk result (step.new ≡ with_ways (picked (R.links routes.now)) (flat_map (owed origin.src (fields_of origin)) pending.now) step.old) }
    ensures err { OnErr result (PutsAlone step.old step.new) }
{
    for unsettled in pending {
        unsettled.resend(origin, routes, step)?;
    }
    Ok(())
}

/// Puts a scattering back to its place. There is room, as it was there before.
fn put_back(pending: &mut Vec<Unsettled>, at: usize, unsettled: Unsettled)
    requires place { at ≤ vec_len pending.old }
    requires room { vec_len pending.old < vec_capacity pending.old }
    ensures items { pending.new.items ≡ insert pending.old.items at unsettled }
    ensures more { vec_len pending.new ≡ vec_len pending.old + 1 }
    ensures capacity { vec_capacity pending.new ≡ vec_capacity pending.old }
{
    match pending.insert(at, unsettled) {
        Ok(()) => (),
        Err(AllocFailed { value }) => value.end(),
    }
}

fn copy_all(pending: &[Unsettled], copy: &mut Vec<Unsettled>) -> Result<(), NoMemory>
    requires room { vec_len copy.old + length pending.now ≤ vec_capacity copy.old }
    ensures ok { OnOk result (copy.new.items ≡ copy.old.items ++ pending.now) }
    ensures most { vec_len copy.new ≤ vec_len copy.old + length pending.now }
    ensures capacity { vec_capacity copy.new ≡ vec_capacity copy.old }
{
    for unsettled in pending {
        copy.push_reserved(unsettled.try_clone()?);
    }
    Ok(())
}
