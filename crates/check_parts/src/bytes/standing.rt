//! A scene of what can be asked of the core between two steps: how endpoints stand, and what is in their lines and in callbacks.

use crate::bytes::device::{Answer, Answers};
use crate::bytes::scene::{Block, Scene};
use crate::bytes::short::HOLD;

/// All of them.
pub const SCENES: &[Scene] = &[BETWEEN_STEPS];

/// Two reads of 24 bytes: the first is cancelled amid its packets, and the second comes to a stall.
const BETWEEN_STEPS: Scene = Scene {
    title: "a cancel amid a read, a stall and an unplug: how endpoint, lines and callbacks stand between the steps",
    size: 8,
    answers: &[
        Answers {
            ep: 0x81,
            count: 2,
            answer: Answer::Zeros(8),
        },
        Answers {
            ep: 0x81,
            count: 1,
            answer: Answer::Stall,
        },
    ],
    blocks: &[
        HOLD,
        Block {
            from: 0,
            to: 1,
            lines: "stands 81: Running\n\
                line 81 0: nothing\n\
                submit 1 81 bulk 24: h1 number 0\n\
                submit 1 81 bulk 24: h1 number 1\n\
                line 81 0: 0: 0 of 24\n\
                serve 0 81: h1 moved 0 8\n\
                line 81 0: 0: 8 of 24\n\
                line 81 1: 1: 0 of 24\n\
                line 81 2: nothing\n\
                cancel 1 0: h1 done\n\
                stands 81: Running, Stop\n\
                line 81 0: 0: 8 of 24, Cancel\n\
                serve 0 81: h1 moved 0 8\n\
                line 81 0: 0: 16 of 24, Cancel\n\
                command: h1 ran stop 81 ok\n\
                stands 81: Stopped, Stop\n\
                deliver: h1 paused 0\n\
                deliver: h1 settled stop 81 ok\n\
                stands 81: Stopped, Move\n\
                line 81 0: nothing\n\
                callback 1 0: nothing\n\
                take: h1 called 0 ep 81 round 0 CANCELLED 16 data 00000000000000000000000000000000\n\
                callback 1 0: of 81\n\
                callback 2 0: nothing\n\
                command: h1 ran move 81 ok\n\
                deliver: h1 settled move 81 ok\n\
                stands 81: Running\n\
                line 81 0: 1: 0 of 24\n\
                serve 0 81: h1 ended 1 code 6\n\
                stands 81: Halted, its device halted\n\
                return 1 0: h1 done\n\
                callback 1 0: nothing\n\
                plug: there\n\
                unplug 0: - done\n\
                plug: gone",
        },
    ],
};
