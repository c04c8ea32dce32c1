// How long one in-link has been silent.
ghost use Rattle.std.specs.Prelude.{◌≡◌, []};
ghost use Rattle.pipe_base.specs.Silence.{Took, Ticked, is_silent};
ghost use Rattle.pipe_barrier.specs.Silence.{quiet_of, quiet_after, start_of};

use pipe_base::{LinkId, Ts};

/// An in-link, and the reading of the first tick since a packet was received on it, if there was
/// one.
#[derive(Clone, Copy, Debug)]
pub struct Quiet {
    pub link: LinkId,
    pub start: Option<Ts>,
}

impl Quiet {
    pub fn new(link: LinkId) -> Quiet
        ensures { result ≡ quiet_of [] link }
    {
        Quiet { link, start: None }
    }

    /// Takes over that a packet was received on an in-link, on this or another.
    pub fn take(&mut self, link: LinkId)
        ensures { self.new ≡ quiet_after (Took link.0) self.old }
    {
        if link.0 == self.link.0 {
            self.start = None;
        }
    }

    /// After a tick.
    pub fn ticked(self, now: Ts) -> Quiet
        ensures { result ≡ quiet_after (Ticked now.0) self }
    {
        Quiet {
            start: self.start.or(Some(now)),
            ..self
        }
    }

    /// Whether the link has been silent for the patience.
    pub fn is_silent(self, patience: Ts, now: Ts) -> bool
        ensures { result ≡ is_silent patience.0 now.0 (start_of self) }
    {
        match self.start {
            Some(start) => start.0 <= now.0 && now.0 - start.0 >= patience.0,
            None => false,
        }
    }
}
