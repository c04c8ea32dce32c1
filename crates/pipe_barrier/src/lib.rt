//! The in-links of a node: per link the greatest barriers received and how long it has been silent, and the node's two barriers
//! over the links in use.
#![tactic(auto)]

mod change;
mod in_links;
mod law;
mod quiet;
mod register;
mod registers;
mod silence;

pub use in_links::InLinks;
pub use law::barrier_is_greatest_passed;
pub use registers::{Barriers, Registers};
pub use silence::Silence;
