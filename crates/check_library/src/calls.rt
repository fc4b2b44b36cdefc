//! The calls of the scenes with one caller.

use crate::call::{Ask, Call};

/// A handle's first calls.
const OPEN: Call = Call::Ask(Ask::Open);

const CLAIM: Call = Call::Ask(Ask::Claim);

/// The sizes of the packets that the endpoint 81 has for `CALLS`.
pub const TWO_SIZES: [u16; 2] = [8, 1];

/// Each call of the library that makes one step. A read with a timeout of 5 milliseconds, submitted at moment 0, and a write end, and are
/// submitted once more. One of these is canceled, and the time of the other is over: at no moment before its deadline, which
/// would put its order before that of the canceled one, and once. Then the device is gone.
pub const CALLS: [Call; 33] = [
    OPEN,
    CLAIM,
    Call::Ask(Ask::ClearHalt),
    Call::Ask(Ask::Reset),
    Call::Read(8, 5),
    Call::Write,
    Call::Serve(0x81),
    Call::Serve(0x02),
    Call::Deliver,
    Call::Deliver,
    Call::Take,
    Call::Take,
    Call::Again(0),
    Call::AgainWith(1),
    Call::Tick(4),
    Call::Ask(Ask::Cancel(3)),
    Call::Tick(5),
    Call::Tick(3),
    Call::Command,
    Call::Command,
    Call::Deliver,
    Call::Deliver,
    Call::Take,
    Call::Take,
    Call::Command,
    Call::Command,
    Call::Deliver,
    Call::Deliver,
    Call::Stop(3),
    Call::Stop(2),
    Call::Ask(Ask::Release),
    Call::Unplug,
    Call::Ask(Ask::Close),
];

/// The sizes of the packets that the endpoint 81 has for `ROWS`.
pub const FOUR_SIZES: [u16; 4] = [8, 8, 3, 8];

/// Four reads at one endpoint, numbers 0 to 3, at places 2 to 5. By packets of 8, 8, 3 and 8 bytes the first moves bytes at its
/// first packet and ends at its second; the next ends by a short one, and the third by one that fills it. For the
/// last there is none. So
///
/// - of at most 3 packets there are 3, from place 6 on: moved, ended, ended; then 1, at 9, though more are wanted: it ended a
///   transfer, and no other packet does anything. At least one is made, at 10: it finds none, and is told a nak
/// - none of the 3 events where none is wanted; 2 from 11 on; the other, at 13; and then none, of which the place is 14
/// - none of the 3 results where none is wanted; 2 from 14 on, with 77 and 78; the other, at 16, with 79; and then none
pub const ROWS: [Call; 20] = [
    OPEN,
    CLAIM,
    Call::Read(16, 0),
    Call::Read(16, 0),
    Call::Read(8, 0),
    Call::Read(8, 0),
    Call::ServeAll(3),
    Call::ServeAll(100),
    Call::ServeAll(0),
    Call::DeliverAll(0),
    Call::DeliverAll(2),
    Call::DeliverAll(100),
    Call::DeliverAll(100),
    Call::TakeAll(0),
    Call::TakeAll(2),
    Call::TakeAll(100),
    Call::TakeAll(100),
    Call::Stop(0),
    Call::Stop(1),
    Call::Stop(2),
];
