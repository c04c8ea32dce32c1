//! Tests of whole runs: of the world, of `run` from the bytes read to the bytes written, and of what is printed of a run.
#![tactic(auto)]

#[cfg(test)]
mod cli;
#[cfg(test)]
mod trace;
#[cfg(test)]
mod world;
