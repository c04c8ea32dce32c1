//! Tests of the parts of the protocol, over what their crates show. They stand apart, since a crate with tests is proved
//! twice, with and without them. What a function tests it borrows, and it plays a table: each end of what a function owns is
//! proved, at each place where it may end.
#![tactic(auto)]

#[cfg(test)]
mod base;
#[cfg(test)]
mod clock;
#[cfg(test)]
mod codec;
#[cfg(test)]
mod failtime;
#[cfg(test)]
mod host;
#[cfg(test)]
mod in_links;
#[cfg(test)]
mod model;
#[cfg(test)]
mod network;
#[cfg(test)]
mod outside;
#[cfg(test)]
mod registers;
#[cfg(test)]
mod relsend;
#[cfg(test)]
mod reorder;
#[cfg(test)]
mod route;
#[cfg(test)]
mod silence;
#[cfg(test)]
mod switch;
#[cfg(test)]
mod topo;
