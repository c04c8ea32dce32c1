//! The program as one call over its words, a source and a sink: it reads a network and a schedule, runs them, and
//! writes every host's log, where it is asked for with all that happened before them.
#![tactic(auto)]

mod laws;
mod read;
mod replay;
mod status;
mod top;
mod words;
mod write;

pub use laws::inputs_ask_for_one_status;
pub use status::{Status, exit_number};
pub use top::{Outcome, run};
pub use words::{Form, Words};
