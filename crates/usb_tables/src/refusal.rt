//! The check of a request.

ghost use Rattle.std.specs.Prelude.{◌≡◌};
ghost use Rattle.usb_tables.specs.Refusal.{checked, checked_at};

use crate::tds::Tds;
use usb_descriptors::Config;
use usb_model::{Kind, Refused, Request};

/// The TDs that a request is sent as, at a device of this configuration (`libusb_submit_transfer`). NotFound where no
/// endpoint has just its address; else as `check_at`. Takes no memory.
pub fn check(config: &Config, request: &Request) -> Result<Tds, Refused>
    ensures { result ≡ checked config.now request.now }
{
    match config.endpoint(request.ep) {
        Some((kind, size)) => check_at(kind, size, request),
        None => Err(Refused::NotFound),
    }
}

/// The TDs that a request is sent as, at an endpoint of this kind and packet size in bytes. NotSupported for a control
/// or isochronous endpoint; else InvalidParam where the request is for another kind or direction, or has over 262,144
/// bytes. Takes no memory.
pub fn check_at(kind: Kind, size: u16, request: &Request) -> Result<Tds, Refused>
    ensures { result ≡ checked_at kind size request.now }
{
    if kind.is_unsupported() {
        return Err(Refused::NotSupported);
    }
    if !request.kind.is_same(kind) || request.body.is_bad(request.ep) {
        return Err(Refused::InvalidParam);
    }
    Ok(Tds::of(size, request))
}
