//! The transfer at whose TRB an event points.

ghost use Rattle.std.specs.Prelude.{◌≡◌, ◌<◌, ◌+◌, ◌^◌};
ghost use Rattle.usb_model.specs.Endpoint.Status.{told_status};
ghost use Rattle.usb_tables.specs.Events.{read_target, told_of_target};
ghost use Rattle.usb_tables.specs.Statuses.{is_short_an_error};

use crate::status::result;
use usb_model::completion::{STOPPED, TRANSACTION_ERROR};
use usb_model::{Ask, Flags, Status};
use usb_trb::Residual;

/// What an event tells of the transfers of a line.
#[derive(Clone, Copy, PartialEq, Eq, Debug)]
pub enum Reading {
    /// A transfer ended.
    Ended {
        /// Which of the line, from 0.
        item: usize,
        /// What came of it.
        status: Status,
        /// How many of its bytes moved.
        actual: u32,
    },
    /// A transfer stands, since its endpoint was stopped amid it (Stopped; xHCI 1.2, 4.6.9).
    Paused {
        /// Which of the line, from 0.
        item: usize,
        /// How many of its bytes moved until then.
        actual: u32,
    },
    /// The event tells nothing of it: its residual is over the length of the TRB.
    Stray,
}

/// The transfer at whose TRB an event points, and that TRB: what reading the event takes.
#[derive(Clone, Copy, PartialEq, Eq, Debug)]
pub struct Target {
    /// Which transfer of its line, from 0.
    pub item: usize,
    /// Whether its device is gone.
    pub gone: bool,
    /// What it asked for beside the bytes.
    pub flags: Flags,
    /// How many bytes it is to move.
    pub length: u32,
    /// The first ask that it end, if there was one.
    pub ask: Option<Ask>,
    /// How many bytes its TRBs before that one are to move.
    pub before: u32,
    /// How many bytes that TRB is to move.
    pub here: u32,
}

impl Target {
    /// What an event with this residual and completion code tells of it. The bytes that moved are those of the TRBs before
    /// the one that the event points at, and that one's without the residual (xHCI 1.2, 4.11.3.1 and 6.4.2.1). Stray where
    /// the residual is over that TRB's length.
    pub fn read(&self, residual: Residual, code: u8) -> Reading
        requires { self.now.before + self.now.here < 2 ^ 32 }
        ensures { result ≡ read_target self.now residual code }
    {
        let rest = residual.bytes();
        if self.here < rest {
            return Reading::Stray;
        }
        self.told(code, self.before + (self.here - rest))
    }

    /// What an event with this code tells of it, where so many of its bytes moved.
    fn told(&self, code: u8, actual: u32) -> Reading
        ensures { result ≡ told_of_target self.now code actual }
    {
        let item = self.item;
        if code == STOPPED {
            return Reading::Paused { item, actual };
        }
        let status = self.status(code, actual);
        Reading::Ended {
            item,
            status,
            actual,
        }
    }

    /// The status that its callback is told. A transaction error of a gone device says that there is none.
    #[tactic(auto, unfolding(usb_model::specs::Endpoint::Status::told_status))]
    fn status(&self, code: u8, actual: u32) -> Status
        ensures { result ≡ told_status self.now.gone code self.now.ask (is_short_an_error self.now.flags) self.now.length actual }
    {
        if self.gone && code == TRANSACTION_ERROR {
            return Status::NoDevice;
        }
        result(code, self.ask, self.flags, self.length as usize, actual)
    }
}
