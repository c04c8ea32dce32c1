//! What waits in a network: the packets on each link, and the control messages. A list stands in blocks, so that either end
//! is reached at once, and any other place over the counts of the blocks, which are at most one for 512 items that were put
//! without a break, and as many as there are items at worst.
#![tactic(auto)]

mod blocks;
mod line;
mod queue;
mod queues;

pub use queues::Queues;
