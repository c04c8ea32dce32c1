// What can happen to an in-link.

use pipe_base::Ts;

/// What happens to an in-link at one moment.
#[derive(Clone, Copy, Debug)]
pub enum Change {
    /// A packet with these barriers was received on it.
    Received { be: Ts, commit: Ts },
    /// It went down.
    WentDown,
    /// The node came to know it as dropped.
    Dropped,
}
