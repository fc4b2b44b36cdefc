//! What a call gave.

ghost use Rattle.std.specs.Prelude.{◌≡◌, IfErr, IfOk, None, Some};
ghost use Rattle.usb_library.specs.Calls.{changes, refusal};

use usb_core::SubmitError;
use usb_journal::{Naming, Receipt};
use usb_model::{Entry, Refused, Reply};

/// What came of a call: its entry, and the receipt for its place of the journal.
#[derive(Drop)]
pub struct Answered<L: Naming> {
    /// For the place where the step stands.
    pub receipt: Receipt<L>,
    /// Whose the step was, and the reply to it.
    pub entry: Entry,
}

impl<L: Naming> Answered<L> {
    /// Whether something was done: the step was neither refused nor idle.
    pub fn has_changed(&self) -> bool
        ensures { result ≡ changes self.now.entry.reply }
    {
        !matches!(self.entry.reply, Reply::Idle | Reply::Refused(_))
    }

    /// The receipt, where the step wasn't refused; else why it was.
    pub fn granted(self) -> Result<Receipt<L>, Refused>
        ensures granted { IfOk result (λ r. (r ≡ self.receipt) × (refusal self.entry.reply ≡ None)) }
        ensures refused { IfErr result (λ why. refusal self.entry.reply ≡ Some why) }
    {
        match self.entry.reply {
            Reply::Refused(why) => Err(why),
            _ => Ok(self.receipt),
        }
    }
}

/// A submission that has its place in the journal, whether it was refused or not.
#[derive(Drop)]
pub struct Submitted<L: Naming, G, P> {
    /// For the place where the step stands.
    pub receipt: Receipt<L>,
    /// The transfer's number; or why it was refused, with all that was given.
    pub number: Result<u64, SubmitError<G, P>>,
}
