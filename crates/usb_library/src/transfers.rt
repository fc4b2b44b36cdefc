//! The calls that submit transfers, and those that end them.

ghost use Rattle.std.specs.Prelude.{◌≡◌, IfErr, IfOk, IfSome, OnErr, OnOk, option_map};
ghost use Rattle.usb_model.specs.declared.step.Step.TheVariants.{Answer, Submit, Take};
ghost use Rattle.usb_model.specs.declared.verdict.Verdict.TheVariants.{Again, AgainWith, Stop};
ghost use Rattle.usb_core.specs.Public.{called_entry};
ghost use Rattle.usb_journal.specs.Booked.{answer_entry};
ghost use Rattle.usb_library.specs.Calls.{Makes, Ticks, misses};

use crate::answered::{Answered, Submitted};
use crate::caller::Caller;
use crate::library::Library;
use crate::payload::Payload;
use crate::wakes::{Work, WorkerPart};
use std::alloc::AllocError;
use std::sync::Wait;
use usb_core::Taken;
use usb_device::Device;
use usb_journal::{Naming, Past, Receipt, RecordError, Recorder};
use usb_model::{Bytes, Name, Request};

impl<L: Naming, P: Payload, D: Device, J: Recorder> Library<L, P, D, J> {
    /// Submits a transfer (libusb 1.0, `libusb_submit_transfer`), whose callback is kept with it and suits its name: its number. Refused
    /// where the endpoint isn't the name's (NotFound), the device is gone (NoDevice), the kind is not supported or another's,
    /// direction or length is wrong (NotSupported, InvalidParam), or the endpoint has 16 transfers (Busy). Request and callback then come back, and
    /// so they do, without a receipt, where memory is refused.
    pub fn submit<R: Wait>(
        &self,
        rt: &R,
        caller: &mut Caller<L>,
        h: Name,
        request: Request,
        callback: P,
    ) -> Result<Submitted<L, Request, P>, RecordError<Request, P>>
        requires suits { P.Whom.suits callback h }
        ensures made { IfOk result (λ x. Makes L.setup (Submit h request) caller.old caller.new x.receipt) }
        ensures entry { IfOk result (λ x. x.receipt.entry.entry ≡ answer_entry h x.number) }
        ensures back { IfOk result (λ x. IfErr x.number (λ y. (y.given ≡ request) × (y.payload ≡ callback))) }
        ensures refused { IfErr result (λ x. (x.given ≡ request) × (x.payload ≡ callback) × (caller.new ≡ misses caller.old)) }
    {
        let made = self
            .lock(rt)
            .book
            .submit(h, request, callback, &mut caller.position);
        let (receipt, number) = caller.counted(made)?;
        let accepted = number.is_ok();
        self.wake_if(
            rt,
            caller,
            &receipt,
            accepted,
            Work::Of(WorkerPart::Controller),
        );
        Ok(Submitted { receipt, number })
    }

    /// The oldest result goes out to its callback, which suits its name and is handed over with what it is to be told (libusb 1.0,
    /// `libusb_transfer_cb_fn`): whoever takes it calls it, with no lock held, and tells its verdict by `answer`. None where none
    /// waits. An error where memory is refused: then nothing changed.
    pub fn take<R: Wait>(
        &self,
        rt: &R,
        caller: &mut Caller<L>,
    ) -> Result<(Receipt<L>, Option<Taken<P>>), AllocError>
        ensures made { IfOk result (λ x. Makes L.setup Take caller.old caller.new x.0) }
        ensures entry { IfOk result (λ x. x.0.entry.entry ≡ called_entry (option_map (λ t. t.returned) x.1)) }
        ensures suits { IfOk result (λ x. IfSome x.1 (λ t. P.Whom.suits t.payload t.returned.h)) }
        ensures refused { OnErr result (caller.new ≡ misses caller.old) }
    {
        let made = self.lock(rt).book.take(&mut caller.position);
        let (receipt, taken) = caller.counted(made)?;
        self.wake_if(rt, caller, &receipt, taken.is_some(), Work::None);
        Ok((receipt, taken))
    }

    /// Ends the callback of a transfer, which isn't submitted once more. NotFound where the name has no such transfer in
    /// its callback. An error where memory is refused: then nothing changed.
    pub fn stop<R: Wait>(
        &self,
        rt: &R,
        caller: &mut Caller<L>,
        h: Name,
        n: u64,
    ) -> Result<Answered<L>, AllocError>
        ensures made { IfOk result (λ x. Makes L.setup (Answer h n Stop) caller.old caller.new x.receipt) }
        ensures entry { IfOk result (λ x. x.entry ≡ x.receipt.entry.entry) }
        ensures refused { OnErr result (caller.new ≡ misses caller.old) }
    {
        let made = self.lock(rt).book.stop(h, n, &mut caller.position);
        let (receipt, entry) = caller.counted(made)?;
        let answered = Answered { receipt, entry };
        let changed = answered.has_changed();
        self.wake_if(rt, caller, &answered.receipt, changed, Work::None);
        Ok(answered)
    }

    /// Submits the transfer of a callback once more, under a new number; its callback ends. Refused as a submission is, and
    /// NotFound where the name has no such transfer in its callback: then the callback goes on, and what was kept comes back. So it does,
    /// without a receipt, where memory is refused.
    pub fn again<R: Wait>(
        &self,
        rt: &R,
        caller: &mut Caller<L>,
        h: Name,
        n: u64,
        callback: P,
    ) -> Result<Submitted<L, (), P>, RecordError<(), P>>
        requires suits { P.Whom.suits callback h }
        ensures made { IfOk result (λ x. Makes L.setup (Answer h n Again) caller.old caller.new x.receipt) }
        ensures entry { IfOk result (λ x. x.receipt.entry.entry ≡ answer_entry h x.number) }
        ensures back { IfOk result (λ x. IfErr x.number (λ y. y.payload ≡ callback)) }
        ensures refused { IfErr result (λ x. (x.payload ≡ callback) × (caller.new ≡ misses caller.old)) }
    {
        let made = self
            .lock(rt)
            .book
            .again(h, n, callback, &mut caller.position);
        let (receipt, number) = caller.counted(made)?;
        let renewed = number.is_ok();
        self.wake_if(
            rt,
            caller,
            &receipt,
            renewed,
            Work::Of(WorkerPart::Controller),
        );
        Ok(Submitted { receipt, number })
    }

    /// The same with other bytes to be sent in the place of what the transfer had. Where it is refused they come back.
    pub fn again_with<R: Wait>(
        &self,
        rt: &R,
        caller: &mut Caller<L>,
        h: Name,
        n: u64,
        bytes: Bytes,
        callback: P,
    ) -> Result<Submitted<L, Bytes, P>, RecordError<Bytes, P>>
        requires suits { P.Whom.suits callback h }
        ensures made { IfOk result (λ x. Makes L.setup (Answer h n (AgainWith bytes)) caller.old caller.new x.receipt) }
        ensures entry { IfOk result (λ x. x.receipt.entry.entry ≡ answer_entry h x.number) }
        ensures back { IfOk result (λ x. IfErr x.number (λ y. (y.given ≡ bytes) × (y.payload ≡ callback))) }
        ensures refused { IfErr result (λ x. (x.given ≡ bytes) × (x.payload ≡ callback) × (caller.new ≡ misses caller.old)) }
    {
        let made = self
            .lock(rt)
            .book
            .again_with(h, n, bytes, callback, &mut caller.position);
        let (receipt, number) = caller.counted(made)?;
        let refilled = number.is_ok();
        self.wake_if(
            rt,
            caller,
            &receipt,
            refilled,
            Work::Of(WorkerPart::Controller),
        );
        Ok(Submitted { receipt, number })
    }

    /// Time passes (libusb 1.0, `libusb_handle_events_timeout`): the moment becomes `now`, in milliseconds, or stays where it is
    /// later; then each transfer that is due, since its timeout has passed since its submission, is asked to end, by rising name and
    /// number. A receipt each. The journal before that began with `past`, which then has all that the caller has seen. An error where
    /// memory is refused: then nothing changed, the moment neither.
    pub fn tick<R: Wait>(
        &self,
        rt: &R,
        caller: &mut Caller<L>,
        past: &mut Past<L>,
        now: u64,
    ) -> Result<Vec<Receipt<L>>, AllocError>
        ensures ticked { IfOk result (λ given. Ticks L.setup now past.old caller.old given.items caller.new) }
        ensures past { OnOk result (past.new ≡ caller.new.seen) }
        ensures refused { OnErr result (caller.new ≡ misses caller.old) }
        ensures kept { OnErr result (past.new ≡ past.old) }
    {
        let made = self.lock(rt).book.tick(&mut caller.position, past, now);
        let receipts = caller.counted(made)?;
        if let Some(first) = receipts.first() {
            self.wake_if(rt, caller, first, true, Work::Any);
        }
        Ok(receipts)
    }
}
