//! A thread of a scene: what it does, one act after the other.

use crate::acts::{Act, Deed, Event, READ_1, READ_8};
use crate::board::Board;
use crate::callback::SceneCallback;
use crate::signals::{Signals, TURNS};
use crossbeam_utils::sync::Parker;
use example_devices::Reader;
use std::alloc::{AllocError, Global};
use std::sync::Wait;
use std::sync::atomic::{AtomicU64, Ordering};
use std::thread;
use std::time::Duration;
use usb_device::Device;
use usb_journal::{Naming, Recorder};
use usb_library::{Caller, Library};
use usb_model::{Refused, Reply};
use usb_workers::Driver;

/// A thread of a scene.
#[derive(Drop)]
pub struct Player<'a> {
    /// Its handle, and the endpoint that it reads from.
    pub reader: Reader,
    /// What it does.
    pub acts: &'a [Act],
    /// What the threads of the scene tell each other.
    pub signals: &'a Signals,
    /// How many of its callbacks were called.
    pub called: &'a AtomicU64,
    /// By which it parks, if it does.
    pub parker: Option<Parker>,
    /// For what it is answered.
    pub alloc: Global,
}

/// The board of a thread.
type Table<'b, 'a, R, L, D, J> = Board<'b, R, L, SceneCallback<'a>, D, J>;

impl<'a> Driver<SceneCallback<'a>> for Player<'a> {
    type Left = Result<Vec<Reply>, AllocError>;

    /// What its calls were answered, in order. An error where it waited in vain, or memory was refused.
    fn drive<L: Naming, D: Device, J: Recorder, R: Wait>(
        self,
        rt: &R,
        library: &Library<L, SceneCallback<'a>, D, J>,
        caller: &mut Caller<L>,
    ) -> Result<Vec<Reply>, AllocError> {
        let mut replies = Vec::new(self.alloc);
        let mut board = Board::new(rt, library, caller);
        for act in self.acts {
            self.play(&mut board, *act, &mut replies)?;
        }
        Ok(replies)
    }
}

impl<'a> Player<'a> {
    /// Does an act.
    fn play<L: Naming, D: Device, J: Recorder, R: Wait>(
        &self,
        board: &mut Table<'_, 'a, R, L, D, J>,
        act: Act,
        replies: &mut Vec<Reply>,
    ) -> Result<(), AllocError> {
        match act {
            Act::Once(deed) => keep(replies, self.call(board, deed)),
            Act::InTime(deed) => keep(replies, self.call_in_time(board, deed)),
            Act::Reads(times) => self.read(board, times),
            Act::Stream(transfers, window) => self.stream(board, transfers, window),
            Act::WatchAndLook => self.watch_and_look(board),
            _ => in_time(self.signal(board.rt, act)),
        }
    }

    /// What a call is answered, made once.
    fn call<L: Naming, D: Device, J: Recorder, R: Wait>(
        &self,
        board: &mut Table<'_, 'a, R, L, D, J>,
        deed: Deed,
    ) -> Reply {
        match deed {
            Deed::Ask(ask) => match board.make(ask.step(&self.reader)) {
                Ok(()) => Reply::Done,
                Err(why) => Reply::Refused(why),
            },
            Deed::Read(bytes, manner) => {
                let callback = SceneCallback::new(manner, self.signals, self.called);
                match board.submit(self.reader.h, self.reader.read(bytes, 0), callback) {
                    Ok(n) => Reply::Number(n),
                    Err(why) => Reply::Refused(why),
                }
            }
        }
    }

    /// The same, made again and again while it is refused as busy.
    fn call_in_time<L: Naming, D: Device, J: Recorder, R: Wait>(
        &self,
        board: &mut Table<'_, 'a, R, L, D, J>,
        deed: Deed,
    ) -> Reply {
        for _ in 0..TURNS {
            let reply = self.call(board, deed);
            if !matches!(reply, Reply::Refused(Refused::Busy)) {
                return reply;
            }
            thread::yield_now();
        }
        Reply::Refused(Refused::Busy)
    }

    /// Reads one byte so many times. An error where a read isn't accepted in time.
    fn read<L: Naming, D: Device, J: Recorder, R: Wait>(
        &self,
        board: &mut Table<'_, 'a, R, L, D, J>,
        times: u64,
    ) -> Result<(), AllocError> {
        for _ in 0..times {
            in_time(is_accepted(&self.call_in_time(board, READ_1)))?;
        }
        Ok(())
    }

    /// Reads 8 bytes so many times, of which so many are in line. An error where one isn't accepted, or called back in time.
    fn stream<L: Naming, D: Device, J: Recorder, R: Wait>(
        &self,
        board: &mut Table<'_, 'a, R, L, D, J>,
        transfers: u64,
        window: u64,
    ) -> Result<(), AllocError> {
        let before = self.called.load(Ordering::SeqCst);
        for submitted in 0..transfers {
            let missing = (submitted + 1).saturating_sub(window);
            in_time(self.wait_for_calls(before.saturating_add(missing)))?;
            in_time(is_accepted(&self.call(board, READ_8)))?;
        }
        in_time(self.wait_for_calls(before.saturating_add(transfers)))
    }

    /// Is woken by changes from here on. An error where there is something to serve.
    fn watch_and_look<L: Naming, D: Device, J: Recorder, R: Wait>(
        &self,
        board: &mut Table<'_, 'a, R, L, D, J>,
    ) -> Result<(), AllocError> {
        let Some(parker) = &self.parker else {
            return Err(AllocError);
        };
        board.watch(parker.unparker().clone()?)?;
        in_time(!board.has_packet())
    }

    /// What has nothing to do with the library: whether it didn't wait in vain.
    fn signal<R: Wait>(&self, rt: &R, act: Act) -> bool {
        match act {
            Act::Say(mark) => self.signals.say(mark),
            Act::Await(event) => return self.wait(event, event),
            Act::AwaitEither(one, other) => return self.wait(one, other),
            Act::Yield(turns) => yield_all(turns),
            Act::Rest(milliseconds) => {
                thread::Parker::new().park_timeout(rt, Duration::from_millis(milliseconds));
            }
            Act::Rescue => return self.signals.was_woken(),
            _ => self.park(rt),
        }
        true
    }

    /// Whether an event has come.
    fn has_come(&self, event: Event) -> bool {
        match event {
            Event::Said(mark) => self.signals.is_said(mark),
            Event::Called(times) => self.called.load(Ordering::SeqCst) >= times,
        }
    }

    /// Whether one of these comes within the turns that a scene has.
    fn wait(&self, one: Event, other: Event) -> bool {
        for _ in 0..TURNS {
            if self.has_come(one) || self.has_come(other) {
                return true;
            }
            thread::yield_now();
        }
        false
    }

    /// Whether so many of its callbacks are called in time.
    fn wait_for_calls(&self, times: u64) -> bool {
        let called = Event::Called(times);
        self.wait(called, called)
    }

    /// Parks until it is woken.
    fn park<R: Wait>(&self, rt: &R) {
        if let Some(parker) = &self.parker {
            parker.park(rt);
        }
    }
}

/// Keeps what a call was answered.
fn keep(replies: &mut Vec<Reply>, reply: Reply) -> Result<(), AllocError> {
    replies.push(reply)?;
    Ok(())
}

/// Whether a transfer was accepted.
fn is_accepted(reply: &Reply) -> bool {
    matches!(reply, Reply::Number(_))
}

/// An error where a thread waited in vain.
fn in_time(is_in_time: bool) -> Result<(), AllocError> {
    if is_in_time { Ok(()) } else { Err(AllocError) }
}

/// Gives way so many times.
fn yield_all(turns: u64) {
    for _ in 0..turns {
        thread::yield_now();
    }
}
