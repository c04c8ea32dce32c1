// How long each in-link of a node has been silent.
ghost use Rattle.std.specs.Prelude.{◌≡◌, ◌==◌, ◌&&◌, ◌∷◌, [], ℕ, List, map, find, option_copied, IfOk};
ghost use Rattle.pipe_base.specs.Moment.{has_link};
ghost use Rattle.pipe_base.specs.Silence.{QuietCall, Took, Ticked, quiet_start, is_silent};
ghost use Rattle.pipe_barrier.specs.Silence.{Stands, AddsCall, quiet_after};

use crate::quiet::Quiet;
use pipe_base::{LinkId, NoMemory, Ts};
use std::alloc::Global;
use std::marker::Model;

/// How long each in-link of a node has been silent, against the patience after which a silent
/// link goes down.
#[derive(Clone, Debug, Drop)]
pub struct Silence {
    patience: Ts,
    links: Vec<Quiet>,
}

impl Model for Silence {
    ghost use Rattle.pipe_barrier.specs.Silence.{Kept, kept_with};

    ghost Value = { Kept };

    ghost view = { λ s. kept_with s.patience s.links.items };
}

impl Silence {
    /// No link has a quiet start.
    pub fn new(alloc: Global, ins: &[LinkId], patience: Ts) -> Result<Silence, NoMemory>
        ensures { IfOk result (λ silence. Stands ins.now patience.0 silence []) }
    {
        let mut links = Vec::with_capacity(alloc, ins.len())?;
        for link in ins {
            links.push(Quiet::new(*link))?;
        }
        Ok(Silence { patience, links })
    }

    /// A packet was received on the link: it is silent no more.
    pub fn took(&mut self, link: LinkId)
        ensures { AddsCall self.old self.new (Took link.0) }
    {
        took_all(&mut self.links, link);
    }

    /// The node's clock reads `now` at a tick. A link without a quiet start gets one.
    pub fn tick(&mut self, now: Ts)
        ensures { AddsCall self.old self.new (Ticked now.0) }
    {
        tick_all(&mut self.links, now);
    }

    /// Whether at this reading the in-link has been silent for the patience, as a tick would find
    /// it. False for a link that is no in-link.
    pub fn silent(&self, link: LinkId, now: Ts) -> bool
        ensures { (ins : List LinkId) (patience : ℕ) (calls : List QuietCall)
            → Stands ins patience self.now calls
            → result ≡ (has_link link.0 ins && is_silent patience now.0 (quiet_start calls link.0)) }
    {
        match self.find(link) {
            Some(quiet) => quiet.is_silent(self.patience, now),
            None => false,
        }
    }

    fn find(&self, link: LinkId) -> Option<&Quiet>
        ensures { option_copied result ≡ find (λ q. q.link.0 == link.0) self.now.links }
    {
        self.links.iter().find(|q| q.link.0 == link.0)
    }

    pub(crate) fn patience(&self) -> Ts
        ensures { result.0 ≡ self.now.patience }
    {
        self.patience
    }

    pub(crate) fn links(&self) -> &[Quiet]
        ensures { result.now ≡ self.now.links }
    {
        self.links.as_slice()
    }

    pub fn try_clone(&self) -> Result<Silence, NoMemory>
        ensures { IfOk result (λ copy. copy ≡ self.now) }
    {
        Ok(self.clone()?)
    }
}

/// A packet was received on a link.
fn took_all(links: &mut [Quiet], link: LinkId)
    ensures { links.new ≡ map (quiet_after (Took link.0)) links.old }
{
    'links: for quiet in links.iter_mut() {
        quiet.take(link);
    }
}

/// Each link without a quiet start gets one.
fn tick_all(links: &mut [Quiet], now: Ts)
    ensures { links.new ≡ map (quiet_after (Ticked now.0)) links.old }
{
    'links: for quiet in links.iter_mut() {
        *quiet = quiet.ticked(now);
    }
}
