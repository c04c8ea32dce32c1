//! What happens in a network, one event at a time: events, the record of each, who acts in it and what was logged, and in
//! `specs/` the definitions that say what each record must be.
#![tactic(auto)]

mod acting;
mod event;
mod logs;
mod packets;
mod record;

pub use acting::{acting_node, actor, is_idle};
pub use event::{Event, EventList};
pub use logs::{Log, collect_logs};
pub use packets::{carries, is_beacon, is_recall, key_of};
pub use record::{Record, Took, Trace};
