// The refusal that every crate knows, and what there may be too much of.

use std::alloc::{AllocError, AllocFailed};

/// There was no memory. What a call leaves then is said at the call.
#[derive(Clone, Copy, Debug, PartialEq, Eq)]
pub struct NoMemory;

impl From<AllocError> for NoMemory {
    fn from(_: AllocError) -> Self {
        NoMemory
    }
}

impl<T: Drop> From<AllocFailed<T>> for NoMemory {
    fn from(_: AllocFailed<T>) -> Self {
        NoMemory
    }
}

/// What an input or a run has too much of.
#[derive(Clone, Copy, Debug, PartialEq, Eq)]
pub enum Size {
    Bytes,
    Events,
    /// Packets and control messages put.
    Items,
}
