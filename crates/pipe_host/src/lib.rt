//! One host: it stamps what it sends, puts again what is not acknowledged, holds what it receives until the barrier of its
//! plane passes it, and logs that in the total order.
#![tactic(auto)]

mod buffers;
mod fates;
mod host;
mod laws;
mod obeying;
mod records;
mod sending;
mod taking;
mod ticking;
mod times;

pub use host::Host;
pub use laws::logs_of_any_calls_are_ordered;
