//! Schedules as they are read: each line as an event with the names of the network, or the first bad line with its first
//! fault.
#![tactic(auto)]

mod control;
mod event;
mod exact;
mod failure;
mod laws;
mod name;
mod plain;
mod receivers;
mod schedule;
mod send;

pub use laws::schedules_can_happen;
pub use schedule::{ScheduleFault, read_schedule};
