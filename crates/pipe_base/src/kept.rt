// A step as a record keeps it: most steps do one thing, and take the room of that.
ghost use Rattle.std.specs.Prelude.{◌≡◌, IfOk, map, true, Some, [], ◌∷◌};
ghost use Rattle.pipe_base.specs.Kept.{step_of};
ghost use Rattle.pipe_base.specs.Packets.{beacon};
ghost use Rattle.pipe_base.specs.Ways.{picked, with_beacons, with_ways};
ghost use Rattle.pipe_base.specs.Step.{quiet_step};

use crate::puts::{add_beacons, one_beacon};
use crate::step::{copy_entries, copy_puts};
use crate::{
    Addressed, Announced, Entry, Fate, LinkId, List, LoggedList, NoMemory, Outcome, Packet,
    PutList, Router, Service, Step, Ts,
};
use std::alloc::Global;
use std::marker::Model;
use std::slice;

// What a step did. What a form leaves out did not happen, and a form without an outcome has the outcome `Ok`.
#[derive(Debug, Drop)]
enum Form {
    Quiet(Outcome),
    PutsOne {
        stamped: Option<Ts>,
        put: (LinkId, Packet),
    },
    Puts {
        stamped: Option<Ts>,
        put: PutList,
    },
    Fated(Fate),
    Logs(LoggedList),
    Whole(Box<Step>),
}

/// Room for one packet in a list. It is taken before a step that is to be told in lists.
#[derive(Debug, Drop)]
pub struct PutRoom {
    list: Vec<(LinkId, Packet)>,
}

impl Model for PutRoom {
    ghost use Rattle.std.specs.Prelude.{◌<◌, ◌≡◌, vec_capacity, vec_len};

    ghost Value = { Unit {0} };

    ghost view = { λ r. tt };

    ghost invariant = { λ r. (vec_len r.list ≡ 0) × (0 < vec_capacity r.list) };
}

impl PutRoom {
    pub fn new(alloc: Global) -> Result<PutRoom, NoMemory> {
        Ok(PutRoom {
            list: Vec::with_capacity(alloc, 1)?,
        })
    }

    // The list of the packet. Takes no memory.
    fn of(self, put: (LinkId, Packet)) -> PutList
        ensures { result ≡ put ∷ [] }
    {
        let PutRoom { mut list } = self;
        list.push_reserved(put);
        List::from_vec(list)
    }
}

/// A step that is over, in little memory.
#[derive(Debug, Drop)]
pub struct KeptStep {
    form: Form,
}

impl Model for KeptStep {
    ghost use Rattle.pipe_base.specs.declared.step.Step.{Step};

    ghost Value = { Step };

    ghost use Rattle.pipe_base.specs.Kept.{step_of};

    ghost view = { λ k. step_of k.form };
}

impl KeptStep {
    /// The step that did nothing, with this outcome. Takes no memory.
    pub fn quiet(outcome: Outcome) -> KeptStep
        ensures { result ≡ quiet_step outcome }
    {
        KeptStep {
            form: Form::Quiet(outcome),
        }
    }

    /// The step that did nothing but that a message had its fate, if it had one. Takes no memory.
    pub fn fated(fate: Option<Fate>) -> KeptStep
        ensures { result ≡ record (quiet_step Outcome.Ok) { fate = fate } }
    {
        let form = match fate {
            None => Form::Quiet(Outcome::Ok),
            Some(fate) => Form::Fated(fate),
        };
        KeptStep { form }
    }

    /// The step that puts a packet on its way alone, or counts it where it has none.
    pub fn on_way<R: Router>(
        alloc: Global,
        routes: &R,
        packet: Packet,
    ) -> Result<KeptStep, NoMemory>
        ensures { IfOk result (λ kept. kept ≡ with_ways (picked (R.links routes.now)) (packet ∷ []) (quiet_step Outcome.Ok)) }
    {
        match routes.pick(packet.src, packet.dst) {
            Some(link) => Ok(KeptStep {
                form: Form::PutsOne {
                    stamped: None,
                    put: (link, packet),
                },
            }),
            None => {
                let mut step = Step::new(alloc);
                step.unrouted = 1;
                step.keep(alloc)
            }
        }
    }

    /// The step that puts a beacon with these barriers on each of the links. One beacon alone takes no memory.
    pub fn beacons(
        alloc: Global,
        links: &[LinkId],
        be: Ts,
        commit: Ts,
    ) -> Result<KeptStep, NoMemory>
        ensures { IfOk result (λ kept. kept ≡ with_beacons links.now (record { be = be.0; commit = commit.0 }) (quiet_step Outcome.Ok)) }
    {
        let form = match links {
            [link] => Form::PutsOne {
                stamped: None,
                put: (*link, one_beacon(alloc, be, commit)),
            },
            _ => Form::Puts {
                stamped: None,
                put: beacons_on(alloc, links, be, commit)?,
            },
        };
        Ok(KeptStep { form })
    }

    pub fn put(&self) -> &[(LinkId, Packet)]
        ensures { result.now ≡ self.now.put }
    {
        match &self.form {
            Form::PutsOne { put, .. } => slice::from_ref(put),
            Form::Puts { put, .. } => put.as_slice(),
            Form::Whole(step) => step.put.as_slice(),
            _ => &[],
        }
    }

    pub fn control(&self) -> &[Addressed]
        ensures { result.now ≡ self.now.control }
    {
        match &self.form {
            Form::Whole(step) => step.control.as_slice(),
            _ => &[],
        }
    }

    pub fn downed(&self) -> &[(LinkId, Ts)]
        ensures { result.now ≡ self.now.downed }
    {
        match &self.form {
            Form::Whole(step) => step.downed.as_slice(),
            _ => &[],
        }
    }

    pub fn dropped(&self) -> &[LinkId]
        ensures { result.now ≡ self.now.dropped }
    {
        match &self.form {
            Form::Whole(step) => step.dropped.as_slice(),
            _ => &[],
        }
    }

    pub fn stamped(&self) -> Option<Ts>
        ensures { result ≡ self.now.stamped }
    {
        match &self.form {
            Form::PutsOne { stamped, .. } | Form::Puts { stamped, .. } => *stamped,
            Form::Whole(step) => step.stamped,
            _ => None,
        }
    }

    pub fn fate(&self) -> Option<Fate>
        ensures { result ≡ self.now.fate }
    {
        match &self.form {
            Form::Fated(fate) => Some(*fate),
            Form::Whole(step) => step.fate,
            _ => None,
        }
    }

    pub fn logged(&self) -> &[(Service, Entry)]
        ensures { result.now ≡ self.now.logged }
    {
        match &self.form {
            Form::Logs(logged) => logged.as_slice(),
            Form::Whole(step) => step.logged.as_slice(),
            _ => &[],
        }
    }

    pub fn noted(&self) -> &[Announced]
        ensures { result.now ≡ self.now.noted }
    {
        match &self.form {
            Form::Whole(step) => step.noted.as_slice(),
            _ => &[],
        }
    }

    pub fn unrouted(&self) -> u32
        ensures { result ≡ self.now.unrouted }
    {
        match &self.form {
            Form::Whole(step) => step.unrouted,
            _ => 0,
        }
    }

    pub fn outcome(&self) -> Outcome
        ensures { result ≡ self.now.outcome }
    {
        match &self.form {
            Form::Quiet(outcome) => *outcome,
            Form::Whole(step) => step.outcome,
            _ => Outcome::Ok,
        }
    }

    /// The step with its lists at hand, for which there is room. Takes no memory.
    pub fn into_step(self, alloc: Global, room: PutRoom) -> Step
        ensures { result ≡ self }
    {
        let mut step = Step::new(alloc);
        match self.form {
            Form::Quiet(outcome) => step.outcome = outcome,
            Form::PutsOne { stamped, put } => {
                step.stamped = stamped;
                step.put = room.of(put);
            }
            Form::Puts { stamped, put } => {
                step.stamped = stamped;
                step.put = put;
            }
            Form::Fated(fate) => step.fate = Some(fate),
            Form::Logs(logged) => step.logged = logged,
            Form::Whole(whole) => return Box::into_inner(whole),
        }
        step
    }

    pub fn try_clone(&self) -> Result<KeptStep, NoMemory>
        ensures { IfOk result (λ copy. copy ≡ self.now) }
    {
        let form = match &self.form {
            Form::Quiet(outcome) => Form::Quiet(*outcome),
            Form::PutsOne { stamped, put } => Form::PutsOne {
                stamped: *stamped,
                put: (put.0, put.1.try_clone()?),
            },
            Form::Puts { stamped, put } => Form::Puts {
                stamped: *stamped,
                put: copy_puts(put)?,
            },
            Form::Fated(fate) => Form::Fated(*fate),
            Form::Logs(logged) => Form::Logs(copy_entries(logged)?),
            Form::Whole(step) => Form::Whole(Box::new(*Box::allocator(step), step.try_clone()?)?),
        };
        Ok(KeptStep { form })
    }
}

impl Step {
    /// The step as a record keeps it. Takes no memory where the step put packets alone, logged alone, had a fate alone or did
    /// nothing.
    pub fn keep(self, alloc: Global) -> Result<KeptStep, NoMemory>
        ensures { IfOk result (λ kept. kept ≡ self) }
    {
        let form = match self.fate {
            None if self.puts_alone() => puts_form(self.stamped, self.put),
            None if self.logs_alone() => Form::Logs(self.logged),
            Some(fate) if self.is_fated_alone() => Form::Fated(fate),
            _ => Form::Whole(Box::new(alloc, self)?),
        };
        Ok(KeptStep { form })
    }

    // It did nothing but put packets, which it may have stamped, and have a fate.
    fn puts_alone(&self) -> bool
        ensures { result ≡ true
            → self.now ≡ record (quiet_step Outcome.Ok) { put = self.now.put; stamped = self.now.stamped; fate = self.now.fate } }
    {
        self.is_plain() && self.logged.is_empty()
    }

    // It did nothing but log, and have a fate.
    fn logs_alone(&self) -> bool
        ensures { result ≡ true
            → self.now ≡ record (quiet_step Outcome.Ok) { fate = self.now.fate; logged = self.now.logged } }
    {
        self.is_plain() && self.put.is_empty() && self.stamped.is_none()
    }

    // It did nothing but have a fate.
    fn is_fated_alone(&self) -> bool
        ensures { result ≡ true → self.now ≡ record (quiet_step Outcome.Ok) { fate = self.now.fate } }
    {
        self.logs_alone() && self.logged.is_empty()
    }

    // It did nothing but put packets, stamp, have a fate and log.
    fn is_plain(&self) -> bool
        ensures { result ≡ true
            → self.now ≡ record (quiet_step Outcome.Ok) { put = self.now.put; stamped = self.now.stamped; fate = self.now.fate; logged = self.now.logged } }
    {
        self.control.is_empty()
            && self.downed.is_empty()
            && self.dropped.is_empty()
            && self.noted.is_empty()
            && self.unrouted == 0
            && matches!(self.outcome, Outcome::Ok)
    }
}

fn beacons_on(alloc: Global, links: &[LinkId], be: Ts, commit: Ts) -> Result<PutList, NoMemory>
    ensures { IfOk result (λ puts. puts ≡ map (λ l. (l, beacon (record { be = be.0; commit = commit.0 }))) links.now) }
{
    let mut puts = List::new(alloc);
    add_beacons(alloc, &mut puts, links, be, commit)?;
    Ok(puts)
}

// The form of a step that put these packets. One alone takes no list.
fn puts_form(stamped: Option<Ts>, put: PutList) -> Form
    ensures { step_of result ≡ record (quiet_step Outcome.Ok) { put = put; stamped = stamped } }
{
    let mut put = put.into_vec();
    if put.len() == 1 {
        if let Some(put) = put.pop() {
            return Form::PutsOne { stamped, put };
        }
    }
    Form::Puts {
        stamped,
        put: List::from_vec(put),
    }
}
