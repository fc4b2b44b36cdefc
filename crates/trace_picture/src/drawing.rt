//! A drawing, told of a run step by step.

use crate::form::Form;
use crate::html::document;
use crate::known::Known;
use crate::paint::paint;
use crate::picture::Picture;
use std::alloc::{AllocError, Global};
use usb_model::{EndpointInfo, Entry, Name, Reply, Step};

/// A picture of a run, or of a part of it, as far as it was told.
#[derive(Drop)]
pub struct Drawing {
    alloc: Global,
    pub(crate) picture: Picture,
    pub(crate) known: Known,
}

impl Drawing {
    /// A drawing of no step, for those that stand in these lines of a scenario, the first and the last.
    pub fn new(alloc: Global, from: u64, to: u64) -> Drawing {
        Drawing {
            alloc,
            picture: Picture::new(alloc, from, to),
            known: Known::new(alloc),
        }
    }

    /// A device has this endpoint: its lane says so. To be told before the run.
    pub fn tell_endpoint(&mut self, device: u8, info: &EndpointInfo) -> Result<(), AllocError> {
        self.known.note_endpoint(device, info)
    }

    /// Draws the next step of the run and its entry, with the number and the text of the line that says it. Without memory some of it is missing.
    pub fn tell(
        &mut self,
        line: u64,
        text: &[u8],
        step: &Step,
        entry: &Entry,
    ) -> Result<(), AllocError> {
        let column = self.picture.begin_column(line, text, step, entry)?;
        match (&entry.reply, entry.owner) {
            (Reply::Done, _) => self.done(column, step),
            (Reply::Number(n), _) => self.numbered(column, step, *n),
            (Reply::Refused(why), _) => self.refused(column, step, *why),
            (Reply::Idle, _) => self.idle(column, step),
            (reply, Some(h)) => self.turn(column, step, h, reply),
            (_, None) => Ok(()),
        }
    }

    /// Draws what a device, the controller or the core did for a handle.
    fn turn(&mut self, column: u64, step: &Step, h: Name, reply: &Reply) -> Result<(), AllocError> {
        match reply {
            Reply::Nak { n } => self.nak(column, step, *n),
            Reply::Moved { n, bytes } => self.moved(column, step, *n, *bytes),
            Reply::Ended { n, code } => self.ended(column, h, *n, *code),
            Reply::Ran { ep, errand, ok } => self.ran(column, h, *ep, *errand, *ok),
            Reply::Finished { n } => self.finished(column, h, *n),
            Reply::Paused { n } => self.paused(column, h, *n),
            Reply::Settled { ep, errand, ok } => self.settled(column, h, *ep, *errand, *ok),
            Reply::Called(returned) => self.called(column, returned),
            _ => Ok(()),
        }
    }

    /// How many columns it has: one for each step of its lines, and one for each Stop behind a submission that is refused.
    pub fn width(&self) -> u64 {
        self.picture.width()
    }

    /// The picture alone, or a page that has it. Of a drawing with more than 2,000 columns the first 2,000 are there.
    pub fn text(&self, form: Form) -> Result<String, AllocError> {
        let picture = paint(self.alloc, &self.picture, &self.known)?;
        match form {
            Form::Picture => Ok(picture),
            Form::Page => document(self.alloc, &self.picture, picture.as_str()),
        }
    }
}
