//! The controller: it gathers what nodes tell it, decides which hosts have failed and which links are dropped, and tells
//! the others.
#![tactic(auto)]

mod announce;
mod controller;
mod counts;
mod dead;
mod due;
mod heard;
mod lists;
mod messages;

pub use controller::{Change, Controller, Decision};
