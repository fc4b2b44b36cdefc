//! Scenes of long transfers: a TRB for each 65,536 bytes.

use crate::bytes::device::{Answer, Answers};
use crate::bytes::scene::{Block, Scene};
use crate::bytes::short::{HOLD, SHORT_READ};

/// All of them.
pub const SCENES: &[Scene] = &[
    LONGEST_READ,
    SHORT_IN_SECOND_TRB,
    LONG_WRITE,
    LINK_WITHIN_TRANSFER,
];

/// The longest read, of which each packet is full; one byte more is refused.
const LONGEST_READ: Scene = Scene {
    title: "a read of 262144 bytes: its TRBs and its event",
    size: 512,
    answers: &[Answers {
        ep: 0x81,
        count: 512,
        answer: Answer::Zeros(512),
    }],
    blocks: &[
        HOLD,
        Block {
            from: 0,
            to: 1,
            lines: "submit 1 81 bulk 262145: h1 refused 1\n\
                submit 1 81 bulk 262144: h1 number 0\n\
                transfer 81 0: 00000000 01000000 00000100 15040000\n\
                transfer 81 1: 00000100 01000000 00000100 15040000\n\
                transfer 81 2: 00000200 01000000 00000100 15040000\n\
                transfer 81 3: 00000300 01000000 00000100 25040000\n\
                enqueue 81: 4 cycle 1",
        },
        Block {
            from: 0,
            to: 511,
            lines: "serve 0 81: h1 moved 0 512",
        },
        Block {
            from: 0,
            to: 1,
            lines: "serve 0 81: h1 ended 0 code 1\n\
                event 0: 30300210 00000000 00000001 01800301\n\
                deliver: h1 finished 0\n\
                take: h1 called 0 ep 81 round 0 COMPLETED 262144 data *",
        },
    ],
};

/// A read of which the last packet has two of the four bytes that are left, in its second TRB.
const SHORT_IN_SECOND_TRB: Scene = Scene {
    title: "a read of 65540 bytes that ends short: its TRBs and its event",
    size: 512,
    answers: &[
        Answers {
            ep: 0x81,
            count: 128,
            answer: Answer::Zeros(512),
        },
        Answers {
            ep: 0x81,
            count: 1,
            answer: Answer::Zeros(2),
        },
    ],
    blocks: &[
        HOLD,
        Block {
            from: 0,
            to: 1,
            lines: "submit 1 81 bulk 65540: h1 number 0\n\
                transfer 81 0: 00000000 01000000 00000100 15040000\n\
                transfer 81 1: 00000100 01000000 04000000 25040000",
        },
        Block {
            from: 0,
            to: 128,
            lines: "serve 0 81: h1 moved 0 512",
        },
        Block {
            from: 0,
            to: 1,
            lines: "serve 0 81: h1 ended 0 code 13\n\
                event 0: 10300210 00000000 0200000d 01800301\n\
                deliver: h1 finished 0\n\
                take: h1 called 0 ep 81 round 0 COMPLETED 65538 data *",
        },
    ],
};

/// A write of whole packets with an empty one behind them, which is a TD of its own.
const LONG_WRITE: Scene = Scene {
    title: "a write of 131072 bytes and an empty packet: its TRBs, its event, and what is taken",
    size: 512,
    answers: &[Answers {
        ep: 0x02,
        count: 257,
        answer: Answer::Ack,
    }],
    blocks: &[
        HOLD,
        Block {
            from: 0,
            to: 1,
            lines: "zeros 1 02 131072: h1 number 0\n\
                transfer 02 0: 00000000 01000000 00000100 11040000\n\
                transfer 02 1: 00000100 01000000 00000100 01040000\n\
                transfer 02 2: 00000200 01000000 00000000 21040000",
        },
        Block {
            from: 0,
            to: 256,
            lines: "serve 0 02: h1 moved 0 512",
        },
        Block {
            from: 0,
            to: 1,
            lines: "serve 0 02: h1 ended 0 code 1\n\
                event 0: 20400210 00000000 00000001 01800401\n\
                taken 02: 257 packets of 131072\n\
                deliver: h1 finished 0\n\
                take: h1 called 0 ep 02 round 0 COMPLETED 131072 data -",
        },
    ],
};

/// A read of two TRBs, of which one stands at the last place before the Link, the other at the first behind it.
const LINK_WITHIN_TRANSFER: Scene = Scene {
    title: "a read of 65540 bytes across the Link: its TRBs, and the Link between them",
    size: 8,
    answers: &[Answers {
        ep: 0x81,
        count: 126,
        answer: Answer::Zeros(1),
    }],
    blocks: &[
        HOLD,
        Block {
            from: 0,
            to: 126,
            lines: SHORT_READ,
        },
        Block {
            from: 0,
            to: 1,
            lines: "submit 1 81 bulk 65540: h1 number 126\n\
                transfer 81 126: 00000000 01000000 00000100 15040000\n\
                transfer 81 127: 00300210 00000000 00000000 13180000\n\
                transfer 81 0: 00000100 01000000 04000000 24040000\n\
                enqueue 81: 1 cycle 0",
        },
    ],
};
