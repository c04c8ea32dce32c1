// The register of one in-link.
ghost use Rattle.std.specs.Prelude.{◌≡◌};
ghost use Rattle.pipe_barrier.specs.Register.{fresh_register, register_after, lowered, told_of};
ghost use Rattle.pipe_barrier.specs.Registers.{holds};

use crate::Barriers;
use crate::change::Change;
use pipe_base::{Addressed, Control, LinkId, To, Ts};

/// The greatest barriers received on an in-link, and whether the link is still in use.
#[derive(Clone, Copy, Debug)]
pub struct Register {
    pub link: LinkId,
    pub be: Ts,
    pub commit: Ts,
    /// In best-effort use.
    pub up: bool,
    /// In commit use.
    pub retained: bool,
}

impl Register {
    pub fn new(link: LinkId) -> Register
        ensures { result ≡ fresh_register link }
    {
        Register {
            link,
            be: Ts(0),
            commit: Ts(0),
            up: true,
            retained: true,
        }
    }

    /// Takes over a change of an in-link, of this or another.
    pub fn change(&mut self, link: LinkId, change: Change)
        ensures { self.new ≡ register_after link change self.old }
    {
        if link.0 == self.link.0 {
            *self = self.after(link, change);
        }
    }

    /// The register after a change of an in-link, of this or another.
    pub fn after(self, link: LinkId, change: Change) -> Register
        ensures { result ≡ register_after link change self }
    {
        if link.0 != self.link.0 {
            return self;
        }
        match change {
            Change::Received { be, commit } => Register {
                be: Ts(self.be.0.max(be.0)),
                commit: Ts(self.commit.0.max(commit.0)),
                ..self
            },
            Change::WentDown => Register { up: false, ..self },
            Change::Dropped => Register {
                up: false,
                retained: false,
                ..self
            },
        }
    }

    /// What the controller is told of a link that is down: its frozen value.
    pub fn told(self) -> Addressed
        ensures { result ≡ told_of self }
    {
        Addressed {
            to: To::Controller,
            control: Control::Down {
                link: self.link,
                value: self.commit,
            },
        }
    }

    /// Whether this is another link than that one, in use, and not above either barrier.
    pub fn holds(&self, link: LinkId, barriers: Barriers) -> bool
        ensures { result ≡ holds link barriers self.now }
    {
        link.0 != self.link.0
            && self.up
            && self.retained
            && self.be.0 <= barriers.be.0
            && self.commit.0 <= barriers.commit.0
    }
}

/// The least value so far, with one more that counts where its link is in use.
pub fn lower(least: Option<u64>, used: bool, value: Ts) -> Option<u64>
    ensures { result ≡ lowered least used value.0 }
{
    match least {
        _ if !used => least,
        None => Some(value.0),
        Some(low) => Some(low.min(value.0)),
    }
}
