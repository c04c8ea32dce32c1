//! The outside of a program as traits that a contract can speak of, and their forms in memory: where bytes come from and go
//! to, with a count of the calls that failed. Only what stands at the edge of the program speaks of it.
#![tactic(auto)]

mod memory;
mod outside;
mod steady;

pub use memory::{MemorySink, MemorySource};
pub use outside::{Failed, Sink, Source};
pub use steady::{SteadySink, SteadySource};
