//! The events of a run, as its entries come.

ghost use Rattle.std.specs.Prelude.{◌≡◌, [], IfOk, OnErr, OnOk};
ghost use Rattle.trace_capture.specs.Control.{device_events};
ghost use Rattle.std.specs.Option.{option_copied};
ghost use Rattle.trace_capture.specs.Events.{callbacks, control_of, device_after, done_after, done_events, entry_after, entry_events, nothing_recorded, number_after, submissions, submitted, transfer_of};

use crate::control::{alone, configuration_value, device_events};
use crate::control_setup::ControlSetup;
use crate::event::CaptureEvent;
use crate::tables::{
    Configured, Holding, Opened, claim, close, device_of, end, forget, holds, release, release_all,
    request_by, track, transfer_of, value_of,
};
use crate::transfer::Tracked;
use std::alloc::{AllocError, Global};
use std::marker::Model;
use usb_model::{DeviceNo, Entry, Name, Reply, Returned, Sequence, Step};

/// Tells the events of a run, as its entries come. Contracts see what it keeps: which device each handle opened, the
/// interfaces that handles hold, and what was asked of each transfer that is in flight or in its callback.
#[derive(Drop)]
pub struct CaptureRecorder {
    configured: Vec<Configured>,
    opened: Vec<Opened>,
    held: Vec<Holding>,
    tracked: Vec<Tracked>,
    alloc: Global,
}

impl Model for CaptureRecorder {
    ghost use Rattle.trace_capture.specs.Events.{Recording};

    ghost Value = { Recording };

    ghost view = { λ r. record { configured = r.configured.items; opened = r.opened.items; held = r.held.items; tracked = r.tracked.items } };
}

impl CaptureRecorder {
    /// Before the first line. Takes no memory.
    pub fn new(alloc: Global) -> CaptureRecorder
        ensures { result ≡ nothing_recorded }
    {
        CaptureRecorder {
            configured: Vec::new(alloc),
            opened: Vec::new(alloc),
            held: Vec::new(alloc),
            tracked: Vec::new(alloc),
            alloc,
        }
    }

    /// The events of a device's line, with the bytes of its configuration. Without memory nothing changes.
    #[tactic(auto, unfolding(crate::specs::Events::device_after))]
    pub fn device(
        &mut self,
        line: u64,
        device: DeviceNo,
        descriptor: &[u8],
    ) -> Result<Sequence<CaptureEvent>, AllocError>
        ensures events { IfOk result (λ events. events ≡ device_events line device descriptor.now) }
        ensures after { OnOk result (self.new ≡ device_after self.old device descriptor.now) }
        ensures kept { OnErr result (self.new ≡ self.old) }
    {
        let events = device_events(self.alloc, line, device, descriptor)?;
        let value = configuration_value(descriptor);
        self.configured.push(Configured { device, value })?;
        Ok(events)
    }

    /// The events of an entry that this step made, from this line. Without memory nothing changes.
    #[tactic(auto, unfolding(crate::specs::Events::entry_events, crate::specs::Events::entry_after))]
    pub fn entry(
        &mut self,
        line: u64,
        step: &Step,
        entry: &Entry,
    ) -> Result<Sequence<CaptureEvent>, AllocError>
        ensures events { IfOk result (λ events. events ≡ entry_events self.old line step.now entry.now) }
        ensures after { OnOk result (self.new ≡ entry_after self.old step.now entry.now) }
        ensures kept { OnErr result (self.new ≡ self.old) }
    {
        let Some(h) = entry.owner else {
            return Ok(Sequence::new(self.alloc));
        };
        match &entry.reply {
            Reply::Done => self.done(line, h, step),
            Reply::Number(n) => self.number(line, h, *n, step),
            Reply::Ended { n, code } => {
                end(&mut self.tracked, h, *n, *code);
                Ok(Sequence::new(self.alloc))
            }
            Reply::Called(returned) => self.called(line, h, returned),
            _ => Ok(Sequence::new(self.alloc)),
        }
    }

    /// The events of a step that was done. Without memory nothing changes.
    fn done(
        &mut self,
        line: u64,
        h: Name,
        step: &Step,
    ) -> Result<Sequence<CaptureEvent>, AllocError>
        ensures events { IfOk result (λ events. events ≡ done_events self.old line h step.now) }
        ensures after { OnOk result (self.new ≡ done_after self.old h step.now) }
        ensures kept { OnErr result (self.new ≡ self.old) }
    {
        let events = self.done_events(line, h, step)?;
        self.keep_done(h, step)?;
        Ok(events)
    }

    /// The events of what a step asks of the device that was done.
    fn done_events(
        &self,
        line: u64,
        h: Name,
        step: &Step,
    ) -> Result<Sequence<CaptureEvent>, AllocError>
        ensures { IfOk result (λ events. events ≡ done_events self.now line h step.now) }
    {
        let Some(device) = device_of(h, self.opened.as_slice()) else {
            return Ok(Sequence::new(self.alloc));
        };
        match self.control_of(h, device, step) {
            Some(setup) => alone(self.alloc, line, device, setup),
            None => Ok(Sequence::new(self.alloc)),
        }
    }

    /// What a step that was done asks of the device.
    fn control_of(&self, h: Name, device: DeviceNo, step: &Step) -> Option<ControlSetup>
        ensures { result ≡ control_of self.now h device step.now }
    {
        match step {
            Step::Claim { i, .. } => {
                if holds(h, *i, self.held.as_slice()) {
                    return None;
                }
                Some(ControlSetup::set_interface(*i))
            }
            Step::Reset { .. } => {
                let value = value_of(device, self.configured.as_slice());
                Some(ControlSetup::set_configuration(value))
            }
            Step::ClearHalt { ep, .. } => Some(ControlSetup::clear_halt(*ep)),
            _ => None,
        }
    }

    /// Keeps what a step says that was done. Without memory nothing changes.
    fn keep_done(&mut self, h: Name, step: &Step) -> Result<(), AllocError>
        ensures after { OnOk result (self.new ≡ done_after self.old h step.now) }
        ensures kept { OnErr result (self.new ≡ self.old) }
    {
        match step {
            Step::Open { dev, .. } => {
                self.opened.push(Opened { h, device: *dev })?;
            }
            Step::Close { .. } => {
                close(&mut self.opened, h);
                release_all(&mut self.held, h);
            }
            Step::Claim { i, .. } => claim(&mut self.held, h, *i)?,
            Step::Release { i, .. } => release(&mut self.held, h, *i),
            Step::Answer { n, .. } => forget(&mut self.tracked, h, *n),
            _ => {}
        }
        Ok(())
    }

    /// The events of a step that got a number: a transfer is submitted, and kept; the one that returned for it is kept no
    /// more. Without memory nothing changes.
    fn number(
        &mut self,
        line: u64,
        h: Name,
        n: u64,
        step: &Step,
    ) -> Result<Sequence<CaptureEvent>, AllocError>
        ensures events { IfOk result (λ events. events ≡ submissions line (submitted self.old h n step.now)) }
        ensures after { OnOk result (self.new ≡ number_after self.old h n step.now) }
        ensures kept { OnErr result (self.new ≡ self.old) }
    {
        let submitted = self.submitted(h, n, step)?;
        let events = submissions(self.alloc, line, submitted.as_ref())?;
        track(&mut self.tracked, submitted)?;
        if let Step::Answer { n, .. } = step {
            forget(&mut self.tracked, h, *n);
        }
        Ok(events)
    }

    /// The transfer that a step submits under a number.
    fn submitted(&self, h: Name, n: u64, step: &Step) -> Result<Option<Tracked>, AllocError>
        ensures { IfOk result (λ x. x ≡ submitted self.now h n step.now) }
    {
        let Some(device) = device_of(h, self.opened.as_slice()) else {
            return Ok(None);
        };
        let Some(request) = request_by(h, self.tracked.as_slice(), step)? else {
            return Ok(None);
        };
        Ok(Some(Tracked {
            h,
            n,
            device,
            request,
            code: None,
        }))
    }

    /// The events of a transfer that is called back.
    fn called(
        &self,
        line: u64,
        h: Name,
        returned: &Returned,
    ) -> Result<Sequence<CaptureEvent>, AllocError>
        ensures { IfOk result (λ events. events ≡ callbacks line returned.now (transfer_of h returned.now.n self.now.tracked)) }
    {
        let mut events = Sequence::new(self.alloc);
        if let Some(x) = transfer_of(h, returned.n, self.tracked.as_slice()) {
            events.push(x.callback(self.alloc, line, returned)?)?;
        }
        Ok(events)
    }
}

/// The submission of what is submitted.
fn submissions(
    alloc: Global,
    line: u64,
    submitted: Option<&Tracked>,
) -> Result<Sequence<CaptureEvent>, AllocError>
    ensures { IfOk result (λ events. events ≡ submissions line (option_copied submitted.entry)) }
{
    let mut events = Sequence::new(alloc);
    if let Some(x) = submitted {
        events.push(x.submission(alloc, line)?)?;
    }
    Ok(events)
}
