// What was reported of links.
ghost use Rattle.std.specs.Prelude.{◌≡◌, ◌<◌, length, replicate, slice_set, None, Some, IfOk};
ghost use Rattle.pipe_topo.specs.Reports.{report_of};

use pipe_base::{LinkId, NoMemory, Ts};
use std::alloc::Global;
use std::marker::Model;

/// A value for each reported link of one topology. Contracts see for each link its value, or none.
#[derive(Clone, Drop)]
pub struct Reports {
    values: Vec<Option<Ts>>,
}

impl Model for Reports {
    ghost use Rattle.std.specs.Prelude.{List, Option};
    ghost use Rattle.pipe_base.specs.declared.name.Ts.{Ts};

    ghost Value = { List (Option Ts) };

    ghost view = { λ r. r.values.items };
}

impl Reports {
    /// No report, for a topology with so many links.
    pub fn none(alloc: Global, links: u16) -> Result<Reports, NoMemory>
        ensures { IfOk result (λ reports. reports ≡ replicate links None) }
    {
        Ok(Reports {
            values: vec![in alloc; None; usize::from(links)]?,
        })
    }

    pub fn set(&mut self, link: LinkId, value: Ts)
        requires { link.0 < length self.old }
        ensures { self.new ≡ slice_set self.old link.0 (Some value) }
    {
        self.values[usize::from(link.0)] = Some(value);
    }

    pub fn value(&self, link: LinkId) -> Option<Ts>
        requires { link.0 < length self.now }
        ensures { result ≡ report_of self.now link.0 }
    {
        self.values[usize::from(link.0)]
    }

    pub fn try_clone(&self) -> Result<Reports, NoMemory>
        ensures { IfOk result (λ copy. copy ≡ self.now) }
    {
        Ok(self.clone()?)
    }
}
