//! The limits of transfers and of scripts. They are our own.

/// The most bytes that a transfer may have.
pub const MOST_BYTES: usize = 262_144;

/// The places of an endpoint: its line, and its results that aren't taken.
pub const MOST_PLACES: usize = 16;

/// The number that no transfer has, since none would be behind it.
pub const LAST_NUMBER: u64 = u64::MAX;

/// The most answers that a script may have.
pub const LONGEST_SCRIPT: usize = 65_536;

/// The most bytes that a packet of a script may have.
pub const LARGEST_PACKET: usize = 2048;
