// The failed hosts that a host has noted.
ghost use Rattle.std.specs.Prelude.{◌≡◌, drop};
ghost use Rattle.pipe_base.specs.Failed.{is_announced, time_of};

use crate::{Announced, HostId, Told, Ts};

/// Failed hosts in the order in which a host came to know of them. The first time of a host stands.
pub type Noted = Told<Announced>;

impl Told<Announced> {
    /// The first time noted for a host. None where it is not noted.
    pub fn time_of(&self, host: HostId) -> Option<Ts>
        ensures { result ≡ time_of host.0 self.now }
    {
        'entries: for entry in self.as_slice() {
            if entry.host == host {
                return Some(entry.time);
            }
        }
        None
    }

    /// Whether the host is noted.
    pub fn has(&self, host: HostId) -> bool
        ensures { result ≡ is_announced host.0 self.now }
    {
        self.as_slice().iter().any(|entry| entry.host == host)
    }
}
