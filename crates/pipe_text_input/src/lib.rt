//! Inputs as they are read: a network with names and a schedule, or the first fault.
#![tactic(auto)]

mod input;
mod laws;
mod read;

pub use input::{Input, InputFault};
pub use laws::inputs_have_networks;
pub use read::read_input;
