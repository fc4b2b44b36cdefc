//! The events of a handle's transfer.

ghost use Rattle.std.specs.Prelude.{◌≡◌, ◌==◌, ◌&&◌, IfOk};
ghost use Rattle.usb_model.specs.Endpoint.Status.{is_good};
ghost use Rattle.trace_capture.specs.Events.{is_tracked, with_code};
ghost use Rattle.trace_capture.specs.Transfer.{callback, errno_of, failure, submission, written};

use crate::errno::Errno;
use crate::event::{CaptureEvent, EventType, UrbFlags};
use crate::identity::UrbId;
use std::alloc::{AllocError, Global};
use usb_model::completion::{SHORT_PACKET, SUCCESS};
use usb_model::{Body, Bytes, DeviceNo, Name, Request, Returned, Sequence, Status};

/// A transfer that was submitted, and whose callback hasn't returned.
#[derive(Drop)]
pub struct Tracked {
    /// Its handle.
    pub h: Name,
    /// Its number.
    pub n: u64,
    /// The device that the handle had opened.
    pub device: DeviceNo,
    /// What was asked.
    pub request: Request,
    /// The completion code with which it ended, where it did (xHCI 1.2, 6.4.5).
    pub code: Option<u8>,
}

/// The bytes that a request writes.
fn written(alloc: Global, body: &Body) -> Result<Bytes, AllocError>
    ensures { IfOk result (λ bytes. bytes ≡ written body.now) }
{
    match body {
        Body::In(_) => Ok(Sequence::new(alloc)),
        Body::Out(bytes) => Ok(bytes.clone()?),
    }
}

/// A copy of bytes that were read.
fn copied(alloc: Global, bytes: &[u8]) -> Result<Bytes, AllocError>
    ensures { IfOk result (λ copy. copy ≡ bytes.now) }
{
    Ok(Sequence::from_vec(Vec::from_slice(alloc, bytes)?))
}

/// Of a failed transfer, whether it was only read short or its transaction failed.
fn failure(code: Option<u8>) -> Errno
    ensures { result ≡ failure code }
{
    match code {
        Some(SUCCESS | SHORT_PACKET) => Errno::RemoteIo,
        _ => Errno::Protocol,
    }
}

/// How a transfer ended, by what its callback is told and its completion code.
fn errno_of(status: Status, code: Option<u8>) -> Errno
    ensures { result ≡ errno_of status code }
{
    match status {
        Status::Completed => Errno::Success,
        Status::Error => failure(code),
        Status::TimedOut | Status::Cancelled => Errno::NoEntry,
        Status::Stall => Errno::Pipe,
        Status::NoDevice => Errno::Shutdown,
        Status::Overflow => Errno::Overflow,
    }
}

impl Tracked {
    /// Whether it is the handle's transfer of this number.
    pub(crate) fn is_tracked(&self, h: Name, n: u64) -> bool
        ensures { result ≡ is_tracked h n self.now }
    {
        self.h == h && self.n == n
    }

    /// It ended with this completion code, if it is the handle's transfer of this number.
    pub(crate) fn end(&mut self, h: Name, n: u64, code: u8)
        ensures { self.new ≡ with_code h n code self.old }
    {
        if self.is_tracked(h, n) {
            self.code = Some(code);
        }
    }

    /// It is submitted, from this line.
    pub(crate) fn submission(&self, alloc: Global, line: u64) -> Result<CaptureEvent, AllocError>
        ensures { IfOk result (λ event. event ≡ submission line self.now) }
    {
        Ok(CaptureEvent {
            id: UrbId::Transfer {
                h: self.h,
                n: self.n,
            },
            event_type: EventType::Submission,
            kind: self.request.kind,
            ep: self.request.ep,
            device: self.device,
            line,
            errno: Errno::InProgress,
            length: self.request.body.length(),
            setup: None,
            flags: UrbFlags::of(&self.request),
            bytes: written(alloc, &self.request.body)?,
        })
    }

    /// It is called back, from this line, with what came of it.
    pub(crate) fn callback(
        &self,
        alloc: Global,
        line: u64,
        returned: &Returned,
    ) -> Result<CaptureEvent, AllocError>
        ensures { IfOk result (λ event. event ≡ callback line self.now returned.now) }
    {
        Ok(CaptureEvent {
            id: UrbId::Transfer {
                h: self.h,
                n: self.n,
            },
            event_type: EventType::Callback,
            kind: self.request.kind,
            ep: self.request.ep,
            device: self.device,
            line,
            errno: errno_of(returned.status, self.code),
            length: returned.actual as usize,
            setup: None,
            flags: UrbFlags::of(&self.request),
            bytes: copied(alloc, returned.bytes.as_slice())?,
        })
    }
}
