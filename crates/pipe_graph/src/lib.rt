//! Laws of paths in a graph of hosts, halves and links. Each is a function that does nothing and ensures the law, so
//! that it can be cited.
#![tactic(auto)]

mod paths;
mod reach;
mod routes;

pub use paths::{larger_sets_have_paths, paths_carry, paths_join, paths_split, paths_turn};
pub use reach::{path_is_reach, paths_are_fed, reach_has_path, reach_turns};
pub use routes::{
    agreeing_sets_route_alike, firsts_begin_shortest, lists_give_routes, shortest_are_firsts,
};
