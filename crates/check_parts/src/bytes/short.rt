//! Scenes of short transfers: one TRB each, and how rings turn.

use crate::bytes::device::{Answer, Answers};
use crate::bytes::scene::{Block, Scene};

/// All of them.
pub const SCENES: &[Scene] = &[
    TRANSFER_RING_BYTES,
    BUFFERS,
    ERRAND_BYTES,
    STALL_BESIDE_CANCEL,
    EVENT_RING_TURNS,
    COMMAND_RING_TURNS,
];

/// A handle opens the device, and claims its interface 0.
pub const HOLD: Block = Block {
    from: 0,
    to: 1,
    lines: "open 1 0: h1 done\n\
        claim 1 0: h1 done",
};

/// A read of 8 bytes, to which the device sends one, from its submission to the end of its callback.
pub const SHORT_READ: &str = "submit 1 81 bulk 8: h1 number #\n\
    serve 0 81: h1 ended # code 13\n\
    deliver: h1 finished #\n\
    take: h1 called # ep 81 round 0 COMPLETED 1 data 00\n\
    return 1 #: h1 done";

/// A read of 8 bytes that is cancelled before any packet, from its submission to the end of its callback.
const CANCELLED_READ: &str = "submit 1 81 bulk 8: h1 number #\n\
    cancel 1 #: h1 done\n\
    command: h1 ran stop 81 ok\n\
    deliver: h1 settled stop 81 ok\n\
    take: h1 called # ep 81 round 0 CANCELLED 0 data -\n\
    command: h1 ran move 81 ok\n\
    deliver: h1 settled move 81 ok\n\
    return 1 #: h1 done";

/// 200 reads one after another. The ring has 127 places and a Link, so the read of number 127 stands at index 0 again, with
/// the other cycle.
const TRANSFER_RING_BYTES: Scene = Scene {
    title: "200 reads of 8 bytes: their TRBs, and the Link at which the transfer ring turns",
    size: 8,
    answers: &[Answers {
        ep: 0x81,
        count: 200,
        answer: Answer::Zeros(1),
    }],
    blocks: &[
        HOLD,
        Block {
            from: 0,
            to: 1,
            lines: "enqueue 81: 0 cycle 1\n\
                submit 1 81 bulk 8: h1 number 0\n\
                transfer 81 0: 00000000 01000000 08000000 25040000\n\
                enqueue 81: 1 cycle 1\n\
                serve 0 81: h1 ended 0 code 13\n\
                event 0: 00300210 00000000 0700000d 01800301\n\
                deliver: h1 finished 0\n\
                take: h1 called 0 ep 81 round 0 COMPLETED 1 data 00\n\
                return 1 0: h1 done",
        },
        Block {
            from: 1,
            to: 127,
            lines: SHORT_READ,
        },
        Block {
            from: 0,
            to: 1,
            lines: "transfer 81 126: 00000000 01000000 08000000 25040000\n\
                transfer 81 127: 00300210 00000000 00000000 03180000\n\
                transfer 81 0: 00000000 01000000 08000000 25040000\n\
                enqueue 81: 0 cycle 0",
        },
        Block {
            from: 127,
            to: 128,
            lines: SHORT_READ,
        },
        Block {
            from: 0,
            to: 1,
            lines: "transfer 81 0: 00000000 01000000 08000000 24040000\n\
                transfer 81 1: 00000000 01000000 08000000 25040000",
        },
        Block {
            from: 128,
            to: 200,
            lines: SHORT_READ,
        },
        Block {
            from: 0,
            to: 1,
            lines: "transfer 81 0: 00000000 01000000 08000000 24040000\n\
                transfer 81 127: 00300210 00000000 00000000 03180000\n\
                enqueue 81: 73 cycle 0",
        },
    ],
};

/// Three reads. The buffer of a transfer begins 262,144 bytes behind that of the one before, from 4 GiB on, and one that is
/// taken leaves its buffer to the next.
const BUFFERS: Scene = Scene {
    title: "a read behind another and one behind both: the buffers of their TRBs",
    size: 8,
    answers: &[Answers {
        ep: 0x81,
        count: 3,
        answer: Answer::Zeros(1),
    }],
    blocks: &[
        HOLD,
        Block {
            from: 0,
            to: 1,
            lines: "submit 1 81 bulk 8: h1 number 0\n\
                submit 1 81 bulk 8: h1 number 1\n\
                transfer 81 0: 00000000 01000000 08000000 25040000\n\
                transfer 81 1: 00000400 01000000 08000000 25040000\n\
                serve 0 81: h1 ended 0 code 13\n\
                deliver: h1 finished 0\n\
                submit 1 81 bulk 8: h1 number 2\n\
                transfer 81 2: 00000800 01000000 08000000 25040000\n\
                take: h1 called 0 ep 81 round 0 COMPLETED 1 data 00\n\
                return 1 0: h1 done\n\
                submit 1 81 bulk 8: h1 number 3\n\
                transfer 81 3: 00000000 01000000 08000000 25040000\n\
                transfer 81 1: 00000400 01000000 08000000 25040000",
        },
    ],
};

/// A read that is cancelled after its first packet: the endpoint stops, its TRB becomes a No Op, and the controller is moved
/// past it.
const ERRAND_BYTES: Scene = Scene {
    title: "a cancel amid a read: its orders and events, and what is left of its TRB",
    size: 8,
    answers: &[Answers {
        ep: 0x81,
        count: 1,
        answer: Answer::Zeros(8),
    }],
    blocks: &[
        HOLD,
        Block {
            from: 0,
            to: 1,
            lines: "submit 1 81 bulk 24: h1 number 0\n\
                transfer 81 0: 00000000 01000000 18000000 25040000\n\
                serve 0 81: h1 moved 0 8\n\
                cancel 1 0: h1 done\n\
                order 0: 00000000 00000000 00000000 013c0301\n\
                command: h1 ran stop 81 ok\n\
                event 0: 00300210 00000000 1000001a 01800301\n\
                event 1: 00000020 00000000 00000001 01840001\n\
                deliver: h1 paused 0\n\
                deliver: h1 settled stop 81 ok\n\
                transfer 81 0: 00000000 00000000 00000000 01200000\n\
                order 1: 11300210 00000000 00000000 01400301\n\
                take: h1 called 0 ep 81 round 0 CANCELLED 8 data 0000000000000000\n\
                command: h1 ran move 81 ok\n\
                event 2: 10000020 00000000 00000001 01840001\n\
                deliver: h1 settled move 81 ok",
        },
    ],
};

/// A stall of one handle's endpoint, beside a cancel of another's.
const STALL_BESIDE_CANCEL: Scene = Scene {
    title: "a stall beside another handle's cancel: the orders and events of both",
    size: 8,
    answers: &[
        Answers {
            ep: 0x81,
            count: 1,
            answer: Answer::Stall,
        },
        Answers {
            ep: 0x83,
            count: 1,
            answer: Answer::Zeros(1),
        },
    ],
    blocks: &[
        HOLD,
        Block {
            from: 0,
            to: 1,
            lines: "open 2 0: h2 done\n\
                claim 2 1: h2 done\n\
                submit 1 81 bulk 8: h1 number 0\n\
                submit 2 83 int 8: h2 number 0\n\
                serve 0 81: h1 ended 0 code 6\n\
                event 0: 00300210 00000000 08000006 01800301\n\
                serve 0 83: h2 ended 0 code 13\n\
                event 1: 00700210 00000000 0700000d 01800701\n\
                deliver: h1 finished 0\n\
                order 0: 00000000 00000000 00000000 01380301\n\
                cancel 2 0: h2 done\n\
                order 1: 00000000 00000000 00000000 013c0701\n\
                command: h1 ran reset 81 ok\n\
                event 2: 00000020 00000000 00000001 01840001\n\
                deliver: h2 finished 0\n\
                deliver: h1 settled reset 81 ok\n\
                order 2: 11300210 00000000 00000000 01400301\n\
                command: h2 ran stop 83 ok\n\
                event 3: 10000020 00000000 00000001 01840001\n\
                take: h1 called 0 ep 81 round 0 STALL 0 data -\n\
                deliver: h2 settled stop 83 ok\n\
                take: h2 called 0 ep 83 round 0 COMPLETED 1 data 00\n\
                command: h1 ran move 81 ok\n\
                event 4: 20000020 00000000 00000001 01840001\n\
                deliver: h1 settled move 81 ok",
        },
    ],
};

/// 5,000 reads one after another: the event of number 4,096 stands at index 0 again, with the other cycle. The device is
/// reset once, so that its script serves both halves; the last read is the 2,500th behind that, at index 86 of its ring.
const EVENT_RING_TURNS: Scene = Scene {
    title: "5000 reads of 8 bytes: the events at which the event ring turns",
    size: 8,
    answers: &[Answers {
        ep: 0x81,
        count: 2_500,
        answer: Answer::Zeros(1),
    }],
    blocks: &[
        HOLD,
        Block {
            from: 0,
            to: 2_500,
            lines: SHORT_READ,
        },
        Block {
            from: 0,
            to: 1,
            lines: "reset 1: h1 done",
        },
        Block {
            from: 2_500,
            to: 5_000,
            lines: SHORT_READ,
        },
        Block {
            from: 0,
            to: 1,
            lines: "event 903: 60350210 00000000 0700000d 00800301\n\
                event 904: f0300210 00000000 0700000d 01800301",
        },
    ],
};

/// 128 reads that are cancelled before any packet: each takes two orders, so the last Move stands at index 0 again, with the
/// other cycle, behind the Link at index 255. It leads to the end of a line that has turned as well.
const COMMAND_RING_TURNS: Scene = Scene {
    title: "128 cancels: the orders and the Link at which the command ring turns",
    size: 8,
    answers: &[],
    blocks: &[
        HOLD,
        Block {
            from: 0,
            to: 127,
            lines: CANCELLED_READ,
        },
        Block {
            from: 0,
            to: 1,
            lines: "order 0: 00000000 00000000 00000000 013c0301\n\
                order 1: 11300210 00000000 00000000 01400301\n\
                order 254: 00000000 00000000 00000000 00000000\n\
                order 255: 00000020 00000000 00000000 02180000",
        },
        Block {
            from: 127,
            to: 128,
            lines: CANCELLED_READ,
        },
        Block {
            from: 0,
            to: 1,
            lines: "order 254: 00000000 00000000 00000000 013c0301\n\
                order 255: 00000020 00000000 00000000 03180000\n\
                order 0: 10300210 00000000 00000000 00400301\n\
                order 1: 11300210 00000000 00000000 01400301",
        },
    ],
};
