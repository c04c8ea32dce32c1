// What happened: an event with what was taken and what the acting node did.

use crate::Event;
use pipe_base::{Addressed, KeptStep, LinkId, List, NoMemory, Outcome, Packet};

/// What an event took from where it waited.
#[derive(Clone, Debug, Drop)]
pub enum Took {
    Nothing,
    Link { link: LinkId, packet: Packet },
    Message { addressed: Addressed },
}

/// An event that happened.
#[derive(Debug, Drop)]
pub struct Record {
    pub event: Event,
    pub took: Took,
    pub step: KeptStep,
}

/// All that happened, the oldest record first.
pub type Trace = List<Record>;

impl Took {
    ghost use Rattle.std.specs.Prelude.{◌≡◌, IfOk};

    pub fn try_clone(&self) -> Result<Took, NoMemory>
        ensures { IfOk result (λ copy. copy ≡ self.now) }
    {
        Ok(self.clone()?)
    }
}

impl Record {
    ghost use Rattle.std.specs.Prelude.{◌≡◌, IfOk};

    /// The record of a decision in which nothing was decided. It takes the place of one that is moved away.
    pub fn idle() -> Record {
        Record {
            event: Event::Decide,
            took: Took::Nothing,
            step: KeptStep::quiet(Outcome::Ok),
        }
    }

    pub fn try_clone(&self) -> Result<Record, NoMemory>
        ensures { IfOk result (λ copy. copy ≡ self.now) }
    {
        Ok(Record {
            event: self.event.try_clone()?,
            took: self.took.try_clone()?,
            step: self.step.try_clone()?,
        })
    }
}
