// The patience of a network with silent links.

/// Where none is given.
pub const PATIENCE: u64 = 1000;

/// The longest that may be given.
pub const PATIENCE_LIMIT: u64 = 281474976710654;
