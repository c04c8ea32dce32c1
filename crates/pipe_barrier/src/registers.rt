// The registers of a node and its two barriers.
ghost use Rattle.std.specs.Prelude.{◌≡◌, ◌==◌, ◌&&◌, ◌∷◌, [], if◌then◌else◌, List, max, map, not, true, reverse, None, unwrap_or, find, option_copied, IfOk};
ghost use Rattle.std.specs.List.{list_any};
ghost use Rattle.pipe_base.specs.declared.packet.Plane.TheVariants.{BestEffort, Commit};
ghost use Rattle.pipe_base.specs.Moment.{Moment, Received, WentDown, Dropped, is_up, is_retained, has_link, with_downed};
ghost use Rattle.pipe_base.specs.Entries.{with_entries};
ghost use Rattle.pipe_base.specs.Barrier.{register};
ghost use Rattle.pipe_barrier.specs.Register.{moment_of, register_after, least_from};
ghost use Rattle.pipe_barrier.specs.Registers.{Stands, AddsMoment, AreBarriersAfter, downs, downs_among, kept_with, holds};

use crate::change::Change;
use crate::register::{Register, lower};
use pipe_base::{AddressedList, LinkId, NoMemory, Ts};
use std::alloc::Global;
use std::marker::Model;

/// The two barriers of a node.
#[derive(Clone, Copy, Debug, PartialEq, Eq)]
pub struct Barriers {
    pub be: Ts,
    pub commit: Ts,
}

impl Barriers {
    /// The barriers after a look at the least registers in use. A barrier never falls.
    fn follow(self, be: Option<u64>, commit: Option<u64>) -> Barriers
        ensures be { result.be.0 ≡ max self.be.0 (unwrap_or be 0) }
        ensures commit { result.commit.0 ≡ max self.commit.0 (unwrap_or commit 0) }
    {
        Barriers {
            be: Ts(self.be.0.max(be.unwrap_or(0))),
            commit: Ts(self.commit.0.max(commit.unwrap_or(0))),
        }
    }
}

/// Per in-link of a node the greatest barriers received, and the node's own two barriers.
#[derive(Clone, Debug, Drop)]
pub struct Registers {
    links: Vec<Register>,
    barriers: Barriers,
}

impl Model for Registers {
    ghost use Rattle.pipe_barrier.specs.Registers.{Kept, kept_with};

    ghost Value = { Kept };

    ghost view = { λ r. kept_with r.links.items r.barriers };
}

impl Registers {
    /// Registers at 0 for in-links that are all in use.
    pub fn new(alloc: Global, ins: &[LinkId]) -> Result<Registers, NoMemory>
        ensures { IfOk result (λ registers. Stands ins.now registers []) }
    {
        let mut links = Vec::with_capacity(alloc, ins.len())?;
        for link in ins {
            links.push(Register::new(*link))?;
        }
        Ok(Registers {
            links,
            barriers: Barriers {
                be: Ts(0),
                commit: Ts(0),
            },
        })
    }

    /// A packet was received on an in-link that is up. Takes as long as there are in-links, as do `down` and `remove`.
    pub fn raise(&mut self, link: LinkId, be: Ts, commit: Ts)
        ensures { AddsMoment self.old self.new (Received link.0 be.0 commit.0) }
    {
        self.change(link, Change::Received { be, commit });
    }

    /// An in-link that was up went down.
    pub fn down(&mut self, link: LinkId)
        ensures { AddsMoment self.old self.new (WentDown link.0) }
    {
        self.change(link, Change::WentDown);
    }

    /// The node came to know an in-link as dropped.
    pub fn remove(&mut self, link: LinkId)
        ensures { AddsMoment self.old self.new (Dropped link.0) }
    {
        self.change(link, Change::Dropped);
    }

    /// In-links that were up went down, one after the other.
    pub(crate) fn down_each(&mut self, marks: &[(LinkId, Ts)])
        ensures { (ins : List LinkId) (past : List Moment) → Stands ins self.old past
            → Stands ins self.new (with_downed marks.now past) }
    {
        'marks: for (link, _) in marks {
            self.down(*link);
        }
    }

    /// The node came to know links as dropped, one after the other. Those that are no in-links have no effect.
    pub(crate) fn remove_each(&mut self, links: &[LinkId])
        ensures { (ins : List LinkId) (past : List Moment) → Stands ins self.old past
            → Stands ins self.new (with_entries ins links.now past) }
    {
        'drops: for link in links {
            self.remove(*link);
        }
    }

    fn change(&mut self, link: LinkId, change: Change)
        ensures { AddsMoment self.old self.new (moment_of link change) }
    {
        self.barriers = change_all(&mut self.links, self.barriers, link, change);
    }

    /// The barriers that `raise` would lead to.
    pub fn raised(&self, link: LinkId, be: Ts, commit: Ts) -> Barriers
        ensures { AreBarriersAfter self.now (Received link.0 be.0 commit.0) result }
    {
        barriers_after(
            &self.links,
            self.barriers,
            link,
            Change::Received { be, commit },
        )
    }

    /// Whether the link is an in-link that is up.
    pub fn is_up(&self, link: LinkId) -> bool
        ensures { (ins : List LinkId) (past : List Moment) → Stands ins self.now past
            → result ≡ (has_link link.0 ins && is_up past link.0) }
    {
        match self.find(link) {
            Some(register) => register.up,
            None => false,
        }
    }

    /// Whether the link is an in-link that is known as dropped.
    pub fn is_removed(&self, link: LinkId) -> bool
        ensures { (ins : List LinkId) (past : List Moment) → Stands ins self.now past
            → result ≡ (has_link link.0 ins && not (is_retained past link.0)) }
    {
        match self.find(link) {
            Some(register) => !register.retained,
            None => false,
        }
    }

    /// The commit register of an in-link, which stands still once the link is down. 0 for a link
    /// that is no in-link.
    pub fn frozen(&self, link: LinkId) -> Ts
        ensures { (ins : List LinkId) (past : List Moment) → Stands ins self.now past
            → result.0 ≡ (if has_link link.0 ins then register Commit past link.0 else 0) }
    {
        match self.find(link) {
            Some(register) => register.commit,
            None => Ts(0),
        }
    }

    /// What the controller is told of the in-links that are down and not dropped: of each its frozen
    /// value. One walk over the in-links.
    pub(crate) fn downs(&self, alloc: Global) -> Result<AddressedList, NoMemory>
        ensures { IfOk result (λ told. (ins : List LinkId) (past : List Moment) → Stands ins self.now past
            → told ≡ downs ins past) }
    {
        tell_downs(alloc, self.links())
    }

    fn find(&self, link: LinkId) -> Option<&Register>
        ensures { option_copied result ≡ find (λ r. r.link.0 == link.0) self.now.links }
    {
        self.links.iter().find(|r| r.link.0 == link.0)
    }

    pub(crate) fn links(&self) -> &[Register]
        ensures { result.now ≡ self.now.links }
    {
        self.links.as_slice()
    }

    pub(crate) fn barriers(&self) -> Barriers
        ensures be { result.be.0 ≡ self.now.be }
        ensures commit { result.commit.0 ≡ self.now.commit }
    {
        self.barriers
    }

    /// The best-effort barrier.
    pub fn be(&self) -> Ts
        ensures { result.0 ≡ self.now.be }
    {
        self.barriers.be
    }

    /// The commit barrier.
    pub fn commit(&self) -> Ts
        ensures { result.0 ≡ self.now.commit }
    {
        self.barriers.commit
    }

    pub fn try_clone(&self) -> Result<Registers, NoMemory>
        ensures { IfOk result (λ copy. copy ≡ self.now) }
    {
        Ok(self.clone()?)
    }
}

/// Changes the register of one link and lets the barriers follow.
fn change_all(links: &mut [Register], barriers: Barriers, link: LinkId, change: Change) -> Barriers
    ensures { AddsMoment (kept_with links.old barriers) (kept_with links.new result) (moment_of link change) }
{
    let after = barriers_after(links, barriers, link, change);
    change_each(links, link, change);
    after
}

/// Changes the register of one link.
fn change_each(links: &mut [Register], link: LinkId, change: Change)
    ensures { links.new ≡ map (register_after link change) links.old }
{
    'links: for register in links.iter_mut() {
        register.change(link, change);
    }
}

/// The barriers that `change_all` would lead to. Mostly another link holds them where they are; else one walk.
fn barriers_after(links: &[Register], barriers: Barriers, link: LinkId, change: Change) -> Barriers
    ensures { AreBarriersAfter (kept_with links.now barriers) (moment_of link change) result }
{
    if are_held(links, barriers, link) {
        return barriers;
    }
    let mut be = None;
    let mut commit = None;
    'links: for register in links {
        let register = register.after(link, change);
        be = lower(be, register.up, register.be);
        commit = lower(commit, register.retained, register.commit);
    }
    barriers.follow(be, commit)
}

/// What the controller is told of the links that are down and not dropped.
fn tell_downs(alloc: Global, links: &[Register]) -> Result<AddressedList, NoMemory>
    ensures { IfOk result (λ told. told ≡ downs_among links.now) }
{
    let mut told = AddressedList::new(alloc);
    'links: for register in links {
        if register.retained && !register.up {
            if told.is_empty() {
                told.reserve(1)?;
            }
            told.push(register.told())?;
        }
    }
    Ok(told)
}

/// Whether another link is found that holds both barriers where they are.
fn are_held(links: &[Register], barriers: Barriers, link: LinkId) -> bool
    ensures { result ≡ true → list_any (holds link barriers) (reverse links.now) ≡ true }
{
    if links.len() < 2 {
        return false;
    }
    one_holds(links, barriers, link)
}

/// The last links are asked first, since packets mostly come in the order of the links.
fn one_holds(links: &[Register], barriers: Barriers, link: LinkId) -> bool
    ensures { result ≡ list_any (holds link barriers) (reverse links.now) }
{
    links.iter().rev().any(|r| r.holds(link, barriers))
}
