//! What hosts and halves of switches have in common: the links of one node. Those that come in, with their registers and
//! their silence, those that go out, the ways by them, and which links the node knows as dropped.
#![tactic(auto)]

mod links;
mod ways;

pub use links::Links;
pub use ways::Ways;
