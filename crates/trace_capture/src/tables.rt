//! What is kept from entry to entry, as tables.

ghost use Rattle.std.specs.Prelude.{◌≡◌, ◌==◌, ◌&&◌, ◌++◌, not, map, IfOk, OnErr, OnOk};
ghost use Rattle.std.specs.List.{filter};
ghost use Rattle.std.specs.Option.{option_copied, option_to_list};
ghost use Rattle.trace_capture.specs.Events.{again, claimed, device_of, holds, is_holding, is_tracked, request_by, transfer_of, value_of, with_code, without_transfer};

use crate::transfer::Tracked;
use std::alloc::AllocError;
use usb_model::{Body, DeviceNo, Name, Request, Step, Verdict};

/// A device, and the value of its configuration (USB 2.0, 9.6.3).
#[derive(Clone, Copy)]
pub struct Configured {
    /// The device.
    pub device: DeviceNo,
    /// The value.
    pub value: u8,
}

/// A handle, and the device that it opened.
#[derive(Clone, Copy)]
pub struct Opened {
    /// The handle.
    pub h: Name,
    /// The device.
    pub device: DeviceNo,
}

/// A handle, and an interface that it holds.
#[derive(Clone, Copy)]
pub struct Holding {
    /// The handle.
    pub h: Name,
    /// The interface's number.
    pub interface: u8,
}

/// The value of a device's configuration; 0 where the device was in no line.
pub(crate) fn value_of(device: DeviceNo, configured: &[Configured]) -> u8
    ensures { result ≡ value_of device configured.now }
{
    configured
        .iter()
        .find(|x| x.device == device)
        .map(|x| x.value)
        .unwrap_or(0)
}

/// The device of a handle.
pub(crate) fn device_of(h: Name, opened: &[Opened]) -> Option<DeviceNo>
    ensures { result ≡ device_of h opened.now }
{
    opened.iter().find(|x| x.h == h).map(|x| x.device)
}

/// Whether a handle holds an interface.
pub(crate) fn holds(h: Name, i: u8, held: &[Holding]) -> bool
    ensures { result ≡ holds h i held.now }
{
    held.iter().any(|x| x.h == h && x.interface == i)
}

/// A handle's transfer of this number.
pub(crate) fn transfer_of(h: Name, n: u64, tracked: &[Tracked]) -> Option<&Tracked>
    ensures { option_copied result ≡ transfer_of h n tracked.now }
{
    tracked.iter().find(|x| x.is_tracked(h, n))
}

/// What a transfer asks for that is submitted again.
fn again(verdict: &Verdict, request: &Request) -> Result<Request, AllocError>
    ensures { IfOk result (λ r. r ≡ again verdict.now request.now) }
{
    match verdict {
        Verdict::AgainWith(bytes) => Ok(Request {
            ep: request.ep,
            kind: request.kind,
            flags: request.flags,
            timeout: request.timeout,
            body: Body::Out(bytes.clone()?),
        }),
        Verdict::Stop | Verdict::Again => request.clone(),
    }
}

/// What the step of a handle submits.
pub(crate) fn request_by(
    h: Name,
    tracked: &[Tracked],
    step: &Step,
) -> Result<Option<Request>, AllocError>
    ensures { IfOk result (λ r. r ≡ request_by h tracked.now step.now) }
{
    match step {
        Step::Submit { request, .. } => Ok(Some(request.clone()?)),
        Step::Answer { n, verdict, .. } => match transfer_of(h, *n, tracked) {
            Some(found) => Ok(Some(again(verdict, &found.request)?)),
            None => Ok(None),
        },
        _ => Ok(None),
    }
}

/// A transfer is submitted, if one is.
pub(crate) fn track(
    tracked: &mut Vec<Tracked>,
    submitted: Option<Tracked>,
) -> Result<(), AllocError>
    ensures tracked { OnOk result (tracked.new.items ≡ tracked.old.items ++ option_to_list submitted) }
    ensures kept { OnErr result (tracked.new.items ≡ tracked.old.items) }
{
    if let Some(x) = submitted {
        tracked.push(x)?;
    }
    Ok(())
}

/// A handle claims an interface, which it may hold already.
pub(crate) fn claim(held: &mut Vec<Holding>, h: Name, i: u8) -> Result<(), AllocError>
    ensures claimed { OnOk result (held.new.items ≡ claimed h i held.old.items) }
    ensures kept { OnErr result (held.new.items ≡ held.old.items) }
{
    if !holds(h, i, held.as_slice()) {
        held.push(Holding { h, interface: i })?;
    }
    Ok(())
}

/// A handle releases an interface.
pub(crate) fn release(held: &mut Vec<Holding>, h: Name, i: u8)
    ensures { held.new.items ≡ filter (λ x. not (is_holding h i x)) held.old.items }
{
    held.retain(|x| !(x.h == h && x.interface == i));
}

/// A handle releases all.
pub(crate) fn release_all(held: &mut Vec<Holding>, h: Name)
    ensures { held.new.items ≡ filter (λ x. not (x.h == h)) held.old.items }
{
    held.retain(|x| x.h != h);
}

/// A handle closes its device.
pub(crate) fn close(opened: &mut Vec<Opened>, h: Name)
    ensures { opened.new.items ≡ filter (λ x. not (x.h == h)) opened.old.items }
{
    opened.retain(|x| x.h != h);
}

/// A handle's transfer has returned from its callback.
pub(crate) fn forget(tracked: &mut Vec<Tracked>, h: Name, n: u64)
    ensures { tracked.new.items ≡ without_transfer h n tracked.old.items }
{
    tracked.retain(|x| !x.is_tracked(h, n));
}

/// A handle's transfer ended with this completion code.
pub(crate) fn end(tracked: &mut [Tracked], h: Name, n: u64, code: u8)
    ensures { tracked.new ≡ map (with_code h n code) tracked.old }
{
    for x in tracked.iter_mut() {
        x.end(h, n, code);
    }
}
