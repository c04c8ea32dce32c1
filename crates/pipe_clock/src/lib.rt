//! The clock of a host, and what puts the messages of a scattering.
#![tactic(auto)]

mod best;
mod clock;
mod messages;

pub use best::BeSend;
pub use clock::{ClockEnd, HostClock};
pub use messages::scatter;
