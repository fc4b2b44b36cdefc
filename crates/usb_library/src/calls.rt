//! The calls that take no memory but the journal's.
//!
//! Each makes one step, and gives what came of it with a receipt. A refused step has its place too. An error is want of
//! memory for the journal: then nothing changed, and nothing is left of the call.

ghost use Rattle.std.specs.Prelude.{◌≡◌, IfOk, OnErr};
ghost use Rattle.usb_model.specs.declared.step.Step.TheVariants.{Cancel, Claim, ClearHalt, Close, Command, Deliver, Open, Release, Reset, Serve, Unplug};
ghost use Rattle.usb_core.specs.Public.{StillCarries, does_something};
ghost use Rattle.usb_journal.specs.Booked.{world_where};
ghost use Rattle.usb_library.specs.Calls.{Makes, misses};

use crate::answered::Answered;
use crate::caller::Caller;
use crate::library::Library;
use crate::payload::Payload;
use crate::wakes::{of_event, of_packet};
use std::alloc::AllocError;
use std::sync::Wait;
use usb_device::Device;
use usb_journal::{JournaledCore, Naming, Recorder};
use usb_model::{DeviceNo, EpAddr, Name, Step};

/// The oldest event is handled, for a caller; and whether an order waits then.
fn delivered<L: Naming, P: Drop, D: Device, J: Recorder>(
    book: &mut JournaledCore<L, P, D, J>,
    caller: &mut Caller<L>,
) -> Result<(Answered<L>, bool), AllocError>
    ensures made { IfOk result (λ x. Makes L.setup Deliver caller.old caller.new x.0.receipt) }
    ensures entry { IfOk result (λ x. x.0.entry ≡ x.0.receipt.entry.entry) }
    ensures order { IfOk result (λ x. x.1 ≡ does_something L.setup (world_where L.setup caller.new.seen) Command) }
    ensures refused { OnErr result (caller.new ≡ misses caller.old) }
    ensures carries { StillCarries book.old.core book.new.core }
{
    let made = book.deliver(&mut caller.position);
    let (receipt, entry) = caller.counted(made)?;
    Ok((Answered { receipt, entry }, book.has_order()))
}

impl<L: Naming, P: Payload, D: Device, J: Recorder> Library<L, P, D, J> {
    /// Opens a device (libusb 1.0, `libusb_open`). NotFound where there is no such device, NoDevice where it is gone, Busy where
    /// the name has one open.
    pub fn open<R: Wait>(
        &self,
        rt: &R,
        caller: &mut Caller<L>,
        h: Name,
        dev: DeviceNo,
    ) -> Result<Answered<L>, AllocError>
        ensures made { IfOk result (λ x. Makes L.setup (Open h dev) caller.old caller.new x.receipt) }
        ensures entry { IfOk result (λ x. x.entry ≡ x.receipt.entry.entry) }
        ensures refused { OnErr result (caller.new ≡ misses caller.old) }
    {
        self.call(rt, caller, Step::Open { h, dev })
    }

    /// Closes the name's device; its interfaces are free (libusb 1.0, `libusb_close`). NotFound where it has none open, Busy
    /// where something is under way at an endpoint of it: a transfer in line, a result, a callback, an errand.
    pub fn close<R: Wait>(
        &self,
        rt: &R,
        caller: &mut Caller<L>,
        h: Name,
    ) -> Result<Answered<L>, AllocError>
        ensures made { IfOk result (λ x. Makes L.setup (Close h) caller.old caller.new x.receipt) }
        ensures entry { IfOk result (λ x. x.entry ≡ x.receipt.entry.entry) }
        ensures refused { OnErr result (caller.new ≡ misses caller.old) }
    {
        self.call(rt, caller, Step::Close { h })
    }

    /// Claims an interface of the name's device (libusb 1.0, `libusb_claim_interface`). NotFound where the name has no device
    /// open or this has no such interface, NoDevice where the device is gone, HeldElsewhere where another name holds it.
    pub fn claim<R: Wait>(
        &self,
        rt: &R,
        caller: &mut Caller<L>,
        h: Name,
        i: u8,
    ) -> Result<Answered<L>, AllocError>
        ensures made { IfOk result (λ x. Makes L.setup (Claim h i) caller.old caller.new x.receipt) }
        ensures entry { IfOk result (λ x. x.entry ≡ x.receipt.entry.entry) }
        ensures refused { OnErr result (caller.new ≡ misses caller.old) }
    {
        self.call(rt, caller, Step::Claim { h, i })
    }

    /// Releases an interface (libusb 1.0, `libusb_release_interface`). NotFound where it isn't the name's, Busy where something
    /// is under way at an endpoint of it.
    pub fn release<R: Wait>(
        &self,
        rt: &R,
        caller: &mut Caller<L>,
        h: Name,
        i: u8,
    ) -> Result<Answered<L>, AllocError>
        ensures made { IfOk result (λ x. Makes L.setup (Release h i) caller.old caller.new x.receipt) }
        ensures entry { IfOk result (λ x. x.entry ≡ x.receipt.entry.entry) }
        ensures refused { OnErr result (caller.new ≡ misses caller.old) }
    {
        self.call(rt, caller, Step::Release { h, i })
    }

    /// Resets the name's device: the endpoints that it holds are made new (libusb 1.0, `libusb_reset_device`). NotFound where
    /// the name has none open, NoDevice where it is gone, Busy where something is under way at an endpoint of it,
    /// HeldElsewhere where another name holds an interface of the device.
    pub fn reset<R: Wait>(
        &self,
        rt: &R,
        caller: &mut Caller<L>,
        h: Name,
    ) -> Result<Answered<L>, AllocError>
        ensures made { IfOk result (λ x. Makes L.setup (Reset h) caller.old caller.new x.receipt) }
        ensures entry { IfOk result (λ x. x.entry ≡ x.receipt.entry.entry) }
        ensures refused { OnErr result (caller.new ≡ misses caller.old) }
    {
        self.call(rt, caller, Step::Reset { h })
    }

    /// Ends the halt of a device's endpoint (libusb 1.0, `libusb_clear_halt`; USB 2.0, 9.4.1). NotFound where the endpoint
    /// isn't the name's, NoDevice where the device is gone, Busy where a transfer is in the endpoint's line.
    pub fn clear_halt<R: Wait>(
        &self,
        rt: &R,
        caller: &mut Caller<L>,
        h: Name,
        ep: EpAddr,
    ) -> Result<Answered<L>, AllocError>
        ensures made { IfOk result (λ x. Makes L.setup (ClearHalt h ep) caller.old caller.new x.receipt) }
        ensures entry { IfOk result (λ x. x.entry ≡ x.receipt.entry.entry) }
        ensures refused { OnErr result (caller.new ≡ misses caller.old) }
    {
        self.call(rt, caller, Step::ClearHalt { h, ep })
    }

    /// Asks a transfer to end (libusb 1.0, `libusb_cancel_transfer`): its callback will tell how it ended. NotFound where the
    /// name has no such transfer in progress, or it was asked before.
    pub fn cancel<R: Wait>(
        &self,
        rt: &R,
        caller: &mut Caller<L>,
        h: Name,
        n: u64,
    ) -> Result<Answered<L>, AllocError>
        ensures made { IfOk result (λ x. Makes L.setup (Cancel h n) caller.old caller.new x.receipt) }
        ensures entry { IfOk result (λ x. x.entry ≡ x.receipt.entry.entry) }
        ensures refused { OnErr result (caller.new ≡ misses caller.old) }
    {
        self.call(rt, caller, Step::Cancel { h, n })
    }

    /// A device answers one packet (USB 2.0, 8.5). Idle where there is nothing to serve.
    pub fn serve<R: Wait>(
        &self,
        rt: &R,
        caller: &mut Caller<L>,
        dev: DeviceNo,
        ep: EpAddr,
    ) -> Result<Answered<L>, AllocError>
        ensures made { IfOk result (λ x. Makes L.setup (Serve dev ep) caller.old caller.new x.receipt) }
        ensures entry { IfOk result (λ x. x.entry ≡ x.receipt.entry.entry) }
        ensures refused { OnErr result (caller.new ≡ misses caller.old) }
    {
        let mut guarded = self.lock(rt);
        guarded.look.serve(dev, ep);
        let made = guarded.book.serve(dev, ep, &mut caller.position);
        drop(guarded);
        let (receipt, entry) = caller.counted(made)?;
        let answered = Answered { receipt, entry };
        let changed = answered.has_changed();
        let work = of_packet(&answered.entry.reply);
        self.wake_if(rt, caller, &answered.receipt, changed, work);
        Ok(answered)
    }

    /// The controller carries out the oldest order (xHCI 1.2, 4.6). Idle where none waits.
    pub fn command<R: Wait>(
        &self,
        rt: &R,
        caller: &mut Caller<L>,
    ) -> Result<Answered<L>, AllocError>
        ensures made { IfOk result (λ x. Makes L.setup Command caller.old caller.new x.receipt) }
        ensures entry { IfOk result (λ x. x.entry ≡ x.receipt.entry.entry) }
        ensures refused { OnErr result (caller.new ≡ misses caller.old) }
    {
        self.call(rt, caller, Step::Command)
    }

    /// The oldest event is handled (xHCI 1.2, 4.11.3; libusb 1.0, `libusb_handle_events`). Idle where none waits.
    pub fn deliver<R: Wait>(
        &self,
        rt: &R,
        caller: &mut Caller<L>,
    ) -> Result<Answered<L>, AllocError>
        ensures made { IfOk result (λ x. Makes L.setup Deliver caller.old caller.new x.receipt) }
        ensures entry { IfOk result (λ x. x.entry ≡ x.receipt.entry.entry) }
        ensures refused { OnErr result (caller.new ≡ misses caller.old) }
    {
        let (answered, has_order) = delivered(&mut self.lock(rt).book, caller)?;
        let changed = answered.has_changed();
        let work = of_event(&answered.entry.reply, has_order);
        self.wake_if(rt, caller, &answered.receipt, changed, work);
        Ok(answered)
    }

    /// A device is gone, for ever. NotFound where there is no such device, NoDevice where it is gone already.
    pub fn unplug<R: Wait>(
        &self,
        rt: &R,
        caller: &mut Caller<L>,
        dev: DeviceNo,
    ) -> Result<Answered<L>, AllocError>
        ensures made { IfOk result (λ x. Makes L.setup (Unplug dev) caller.old caller.new x.receipt) }
        ensures entry { IfOk result (λ x. x.entry ≡ x.receipt.entry.entry) }
        ensures refused { OnErr result (caller.new ≡ misses caller.old) }
    {
        self.call(rt, caller, Step::Unplug { dev })
    }
}
