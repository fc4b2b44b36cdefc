//! How much a transfer ring holds.

/// How many places a ring has beside its Link.
pub const PLACES: usize = 127;

/// How many TRBs a ring holds at most: one place stays free.
pub const CAPACITY: usize = 126;
