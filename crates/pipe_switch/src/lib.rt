//! One half of a switch: it passes packets on with its own barriers.
#![tactic(auto)]

mod half;

pub use half::Half;
