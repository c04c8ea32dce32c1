//! The messages that a host holds until a barrier passes them, in the total order.
#![tactic(auto)]

mod reorder;

pub use reorder::Reorder;
