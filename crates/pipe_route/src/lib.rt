//! The ways out of a node: for each receiver the links that begin a shortest path to it.
#![tactic(auto)]

mod firsts;
mod routes;

pub use routes::Routes;
