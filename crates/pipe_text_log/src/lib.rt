//! The text of the logs of a trace.
#![tactic(auto)]

mod print;

pub use print::print_logs;
