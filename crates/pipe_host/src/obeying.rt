// How a host works out a control message.
ghost use Rattle.std.specs.Prelude.{◌≡◌, ◌<◌, ℕ, Bool, List, IfOk, OnErr};
ghost use Rattle.pipe_base.specs.declared.name.NodeId.{NodeId};
ghost use Rattle.pipe_model.specs.declared.record.Record.{Record};
ghost use Rattle.pipe_host.specs.Buffers.{last_of};
ghost use Rattle.pipe_host.specs.Host.{Stands, Works};
ghost use Rattle.pipe_host.specs.Steps.{IsObeying};
ghost use Rattle.pipe_model.specs.Records.{told};

use crate::host::Host;
use pipe_base::{AnnouncedList, Control, KeptStep, LinkList, List, NoMemory, Noted, Step};
use pipe_topo::Topology;
use std::alloc::Global;

impl Host {
    /// Works out what a control message to the host does. A freeze takes its link down, where that is an in-link that is up. Of
    /// a notice the failed hosts are noted past the number of those noted, and of dropped links those past the number of those
    /// known, and the ways are made anew. What the barriers pass then is logged. Nothing changes but that the hosts are noted
    /// and the new ways are set aside. For more than 65,535 noted hosts or known links there is no memory.
    pub fn work_control(
        &mut self,
        topology: &Topology,
        control: &Control,
    ) -> Result<KeptStep, NoMemory>
        requires { self.old.links.node.0 < topology.now.nodes }
        ensures ok { IfOk result (λ step. (node : NodeId) (own : List Record) (place : ℕ) (keep : Bool)
            → Stands topology.now node.0 own self.old
            → Works topology.now node.0 own (told node control.now place keep step) self.new) }
        ensures err { OnErr result (self.new ≡ self.old) }
    {
        let drops = self.links.told_drops(self.alloc, control)?;
        let ahead = self.links.ways_with(self.alloc, topology, &drops)?;
        let count = self.held.adopt(control)?;
        match self.obey(control, drops, count) {
            Ok(step) => {
                self.links.prepare(ahead);
                Ok(step)
            }
            Err(NoMemory) => {
                self.held.unadopt(count);
                Err(NoMemory)
            }
        }
    }

    /// The step of a control message by which so many hosts are noted already, and these links are dropped.
    fn obey(&self, control: &Control, drops: LinkList, count: usize) -> Result<KeptStep, NoMemory>
        ensures { IfOk result (IsObeying self.now control.now drops count) }
    {
        let mut step = Step::new(self.alloc);
        step.downed = self.links.told_marks(self.alloc, control)?;
        step.noted = last_noted(self.alloc, self.held.noted(), count)?;
        let barriers = self.links.barriers_after(&step.downed, &drops)?;
        step.dropped = drops;
        self.held.copy_passed(barriers, &mut step.logged)?;
        step.keep(self.alloc)
    }
}

/// The last so many failed hosts that are noted.
fn last_noted(alloc: Global, noted: &Noted, count: usize) -> Result<AnnouncedList, NoMemory>
    ensures { IfOk result (λ list. list ≡ last_of count noted.now) }
{
    let known = usize::from(noted.count()).saturating_sub(count);
    match noted.as_slice().get(known..) {
        Some(news) => Ok(List::from_vec(news.to_vec(alloc)?)),
        None => Ok(List::new(alloc)),
    }
}
