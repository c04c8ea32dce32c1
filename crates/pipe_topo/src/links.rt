// A set of links.
ghost use Rattle.std.specs.Prelude.{◌≡◌, ◌<◌, Bool, List, length, map, not, replicate, slice_set, true, false, IfOk};
ghost use Rattle.pipe_topo.specs.Sets.{has};

use pipe_base::{LinkId, NoMemory};
use std::alloc::Global;
use std::marker::Model;

/// A set of the links of one topology. Contracts see the answer for each link.
#[derive(Clone, Drop)]
pub struct LinkSet {
    links: Vec<bool>,
}

impl Model for LinkSet {
    ghost use Rattle.std.specs.Prelude.{Bool, List};

    ghost Value = { List Bool };

    ghost view = { λ s. s.links.items };
}

impl LinkSet {
    /// The empty set, for a topology with so many links.
    pub fn none(alloc: Global, links: u16) -> Result<LinkSet, NoMemory>
        ensures { IfOk result (λ set. set ≡ replicate links false) }
    {
        Ok(LinkSet {
            links: vec![in alloc; false; usize::from(links)]?,
        })
    }

    /// The set of all links, for a topology with so many.
    pub fn all(alloc: Global, links: u16) -> Result<LinkSet, NoMemory>
        ensures { IfOk result (λ set. set ≡ replicate links true) }
    {
        Ok(LinkSet {
            links: vec![in alloc; true; usize::from(links)]?,
        })
    }

    pub fn try_clone(&self) -> Result<LinkSet, NoMemory>
        ensures { IfOk result (λ copy. copy ≡ self.now) }
    {
        Ok(self.clone()?)
    }

    pub fn insert(&mut self, link: LinkId)
        requires { link.0 < length self.old }
        ensures { self.new ≡ slice_set self.old link.0 true }
    {
        self.links[usize::from(link.0)] = true;
    }

    pub fn remove(&mut self, link: LinkId)
        requires { link.0 < length self.old }
        ensures { self.new ≡ slice_set self.old link.0 false }
    {
        self.links[usize::from(link.0)] = false;
    }

    pub fn has(&self, link: LinkId) -> bool
        requires { link.0 < length self.now }
        ensures { result ≡ has self.now link.0 }
    {
        self.links[usize::from(link.0)]
    }

    /// The links that are not in the set.
    pub fn rest(&self) -> Result<LinkSet, NoMemory>
        ensures { IfOk result (λ set. set ≡ map not self.now) }
    {
        let alloc = *self.links.allocator();
        let links = self.links.iter().map(|has| !*has).collect(alloc)?;
        Ok(LinkSet { links })
    }
}
