// The registers and the silence of a node's in-links together.
ghost use Rattle.std.specs.Prelude.{◌≡◌, ◌==◌, ◌&&◌, ◌∷◌, [], ℕ, List, IfOk};
ghost use Rattle.pipe_base.specs.Moment.{Moment, Received, is_up, has_link, with_downed};
ghost use Rattle.pipe_base.specs.Entries.{with_entries};
ghost use Rattle.pipe_base.specs.Silence.{QuietCall, Took, Ticked, silent_marks};
ghost use Rattle.pipe_barrier.specs.Registers.{AreBarriers, downs};
ghost use Rattle.pipe_barrier.specs.Registers as registers;
ghost use Rattle.pipe_barrier.specs.InLinks.{Stands, marks_among};

use crate::quiet::Quiet;
use crate::register::Register;
use crate::{Barriers, Registers, Silence};
use pipe_base::{AddressedList, DownList, LinkId, LinkList, NoMemory, Ts};
use std::alloc::Global;

/// What a node keeps of its in-links: the registers, and how long each has been silent.
#[derive(Clone, Debug, Drop)]
pub struct InLinks {
    registers: Registers,
    silence: Silence,
}

impl InLinks {
    /// All in-links are up, with registers at 0 and no quiet start.
    pub fn new(alloc: Global, ins: &[LinkId], patience: Ts) -> Result<InLinks, NoMemory>
        ensures { IfOk result (λ links. Stands ins.now patience.0 links [] []) }
    {
        Ok(InLinks {
            registers: Registers::new(alloc, ins)?,
            silence: Silence::new(alloc, ins, patience)?,
        })
    }

    pub fn registers(&self) -> &Registers
        ensures { result.now ≡ self.now.registers }
    {
        &self.registers
    }

    /// Whether the link is an in-link that is up.
    pub fn is_up(&self, link: LinkId) -> bool
        ensures { (ins : List LinkId) (patience : ℕ) (moments : List Moment) (calls : List QuietCall)
            → Stands ins patience self.now moments calls
            → result ≡ (has_link link.0 ins && is_up moments link.0) }
    {
        self.registers.is_up(link)
    }

    /// The two barriers.
    pub fn barriers(&self) -> Barriers
        ensures be { result.be.0 ≡ self.now.registers.be }
        ensures commit { result.commit.0 ≡ self.now.registers.commit }
        ensures are { (ins : List LinkId) (patience : ℕ) (moments : List Moment)
            (calls : List QuietCall)
            → Stands ins patience self.now moments calls → AreBarriers ins moments result }
    {
        self.registers.barriers()
    }

    /// The barriers that a packet received on the link would lead to.
    pub fn barriers_with(&self, link: LinkId, be: Ts, commit: Ts) -> Barriers
        ensures { (ins : List LinkId) (patience : ℕ) (moments : List Moment) (calls : List QuietCall)
            → Stands ins patience self.now moments calls
            → AreBarriers ins (Received link.0 be.0 commit.0 ∷ moments) result }
    {
        self.registers.raised(link, be, commit)
    }

    /// The in-links that go down at a tick that reads `now`, each with its frozen value, in rising
    /// number. One walk over the links.
    pub fn silent_marks(&self, alloc: Global, now: Ts) -> Result<DownList, NoMemory>
        ensures { IfOk result (λ marks. (ins : List LinkId) (patience : ℕ)
            (moments : List Moment) (calls : List QuietCall)
            → Stands ins patience self.now moments calls
            → marks ≡ silent_marks patience ins moments calls now.0) }
    {
        let registers = self.registers.links();
        let quiets = self.silence.links();
        find_marks(alloc, registers, quiets, self.silence.patience(), now)
    }

    /// The barriers after these links have gone down, one after the other. The registers are
    /// copied only where some link goes.
    pub fn barriers_without(&self, marks: &DownList) -> Result<Barriers, NoMemory>
        ensures { IfOk result (λ barriers. (ins : List LinkId) (patience : ℕ)
            (moments : List Moment) (calls : List QuietCall)
            → Stands ins patience self.now moments calls
            → AreBarriers ins (with_downed marks.now moments) barriers) }
    {
        if marks.is_empty() {
            return Ok(self.registers.barriers());
        }
        let registers = self.registers_without(marks)?;
        Ok(registers.barriers())
    }

    /// The barriers after some links have gone down and then others were dropped, one after the other. The registers
    /// are copied only where some link goes.
    pub fn barriers_after(&self, marks: &DownList, drops: &LinkList) -> Result<Barriers, NoMemory>
        ensures { IfOk result (λ barriers. (ins : List LinkId) (patience : ℕ)
            (moments : List Moment) (calls : List QuietCall)
            → Stands ins patience self.now moments calls
            → AreBarriers ins (with_entries ins drops.now (with_downed marks.now moments)) barriers) }
    {
        if drops.is_empty() {
            return self.barriers_without(marks);
        }
        let mut registers = self.registers_without(marks)?;
        registers.remove_each(drops.as_slice());
        Ok(registers.barriers())
    }

    /// What the controller is told after these links have gone down: of each in-link that is down
    /// and not dropped, these too, its frozen value. The registers are copied only where some link
    /// goes.
    pub fn downs_with(&self, alloc: Global, marks: &DownList) -> Result<AddressedList, NoMemory>
        ensures { IfOk result (λ told. (ins : List LinkId) (patience : ℕ)
            (moments : List Moment) (calls : List QuietCall)
            → Stands ins patience self.now moments calls
            → told ≡ downs ins (with_downed marks.now moments)) }
    {
        if marks.is_empty() {
            return self.registers.downs(alloc);
        }
        let registers = self.registers_without(marks)?;
        registers.downs(alloc)
    }

    /// A copy of the registers after these links have gone down, one after the other.
    fn registers_without(&self, marks: &DownList) -> Result<Registers, NoMemory>
        ensures { IfOk result (λ copy. (ins : List LinkId) (patience : ℕ)
            (moments : List Moment) (calls : List QuietCall)
            → Stands ins patience self.now moments calls
            → registers.Stands ins copy (with_downed marks.now moments)) }
    {
        let mut registers = self.registers.try_clone()?;
        registers.down_each(marks.as_slice());
        Ok(registers)
    }

    /// Takes over that a packet was received. Takes no memory.
    pub fn receive(&mut self, link: LinkId, be: Ts, commit: Ts)
        ensures { (ins : List LinkId) (patience : ℕ) (moments : List Moment) (calls : List QuietCall)
            → Stands ins patience self.old moments calls
            → Stands ins patience self.new (Received link.0 be.0 commit.0 ∷ moments)
            (Took link.0 ∷ calls) }
    {
        self.registers.raise(link, be, commit);
        self.silence.took(link);
    }

    /// Takes over a tick at which these links went down. Takes no memory.
    pub fn tick(&mut self, now: Ts, marks: &[(LinkId, Ts)])
        ensures { (ins : List LinkId) (patience : ℕ) (moments : List Moment) (calls : List QuietCall)
            → Stands ins patience self.old moments calls
            → Stands ins patience self.new (with_downed marks.now moments) (Ticked now.0 ∷ calls) }
    {
        self.registers.down_each(marks);
        self.silence.tick(now);
    }

    /// Takes over that these links went down. Takes no memory.
    pub fn down(&mut self, marks: &[(LinkId, Ts)])
        ensures { (ins : List LinkId) (patience : ℕ) (moments : List Moment) (calls : List QuietCall)
            → Stands ins patience self.old moments calls
            → Stands ins patience self.new (with_downed marks.now moments) calls }
    {
        self.registers.down_each(marks);
    }

    /// Takes over that the node came to know these links as dropped. Those that are no in-links have no effect. Takes
    /// no memory.
    pub fn remove(&mut self, drops: &[LinkId])
        ensures { (ins : List LinkId) (patience : ℕ) (moments : List Moment) (calls : List QuietCall)
            → Stands ins patience self.old moments calls
            → Stands ins patience self.new (with_entries ins drops.now moments) calls }
    {
        self.registers.remove_each(drops);
    }

    pub fn try_clone(&self) -> Result<InLinks, NoMemory>
        ensures { IfOk result (λ copy. copy ≡ self.now) }
    {
        Ok(InLinks {
            registers: self.registers.try_clone()?,
            silence: self.silence.try_clone()?,
        })
    }
}

/// The links that are up and have been silent for the patience, from both records of each link.
fn find_marks(
    alloc: Global,
    registers: &[Register],
    quiets: &[Quiet],
    patience: Ts,
    now: Ts,
) -> Result<DownList, NoMemory>
    ensures { IfOk result (λ marks. marks ≡ marks_among patience.0 now.0 registers.now quiets.now) }
{
    let mut marks = DownList::new(alloc);
    'links: for (register, quiet) in registers.iter().zip(quiets) {
        if register.up && quiet.is_silent(patience, now) {
            marks.push((register.link, register.commit))?;
        }
    }
    Ok(marks)
}
