//! The type of a TRB: control, bits 15 to 10 (xHCI 1.2, 6.4.6).

/// Normal.
pub const NORMAL: u32 = 1;

/// Link.
pub const LINK: u32 = 6;

/// No Op, of a transfer ring.
pub const NO_OP: u32 = 8;

/// Reset Endpoint Command.
pub const RESET_ENDPOINT: u32 = 14;

/// Stop Endpoint Command.
pub const STOP_ENDPOINT: u32 = 15;

/// Set TR Dequeue Pointer Command.
pub const SET_DEQUEUE: u32 = 16;

/// Transfer Event.
pub const TRANSFER_EVENT: u32 = 32;

/// Command Completion Event.
pub const COMMAND_COMPLETION: u32 = 33;
