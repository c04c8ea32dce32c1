//! A trace as text: what was taken, put, told and logged at every event, with names.
#![tactic(auto)]

mod control;
mod event;
mod packet;
mod record;
mod step;
mod trace;
mod word;

pub use event::print_event;
pub use trace::print_trace;
