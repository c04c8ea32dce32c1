//! Topologies as they are read: the parts of an input, names, plans from TOML and from the line of a star, and the first
//! fault of each.
#![tactic(auto)]

mod array;
mod cable;
mod count;
mod division;
mod document;
mod fault;
mod laws;
mod name;
mod number;
mod patience;
mod piece;
mod read;
mod space;
mod star;
mod switch;
mod word;

pub use count::{lines_above, lines_read};
pub use division::{Parts, parts_of};
pub use fault::{KeyName, PlanError, PlanFault};
pub use laws::{described_plans_have_names, described_plans_have_no_fault};
pub use name::is_name;
pub use read::{PlanInput, read_plan};
