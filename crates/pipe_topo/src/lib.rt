//! Networks: plans of hosts, switches and cables, the graph of links that a plan stands for, who reaches whom in it,
//! and sets of links and hosts.
#![tactic(auto)]

mod apart;
mod build;
mod distances;
mod fault;
mod hosts;
mod laws;
mod links;
mod names;
mod node_names;
mod plan;
mod reach;
mod reports;
mod shape;
mod tables;
mod topology;
mod walk;
mod wiring;

pub use distances::{Distances, FAR};
pub use fault::{TopoFault, What};
pub use hosts::HostSet;
pub use laws::{
    no_fault_has_ins, no_fault_is_small, no_fault_joins_all, plans_are_mirrored,
    stars_have_no_fault,
};
pub use links::LinkSet;
pub use names::Names;
pub use node_names::NodeNames;
pub use plan::{Cable, CableEnd, CableList, LevelList, Plan};
pub use reports::Reports;
pub use topology::Topology;
