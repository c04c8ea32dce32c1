//! The world: it runs a schedule of events on a network and appends one record per event, each proved to be what the
//! rules say of a run.
#![tactic(auto)]

mod enter;
mod event;
mod fault;
mod happen;
mod history;
mod node;
mod puts;
mod turn;
mod world;

pub use fault::StepFault;
pub use world::World;
