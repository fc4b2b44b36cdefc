//! A device's interfaces and endpoints, as the core reads its configuration.

ghost use Rattle.std.specs.Prelude.{◌≡◌, slice_get};
ghost use Rattle.usb_core.specs.Public.{ShowsWorld};
ghost use Rattle.usb_model.specs.Setup.{Setup, endpoints_of, interfaces_of};
ghost use Rattle.usb_model.specs.World.{World};
ghost use Rattle.tirnouch_c.specs.Endpoints.{HasEndpoint, HasInterface, endpoint_numbers, kind_number};

use crate::facts::NOT_FOUND;
use crate::session::Session;
use usb_model::{DeviceNo, EndpointInfo, Kind};

/// An endpoint of a device, by the first setting of its interface (USB 2.0, 9.6.6).
#[repr(C)]
#[derive(Clone, Copy, Drop)]
pub struct EndpointNumbers {
    /// Its address.
    pub address: u8,
    /// The number of its interface.
    pub interface: u8,
    /// Its transfer type (libusb 1.0, `libusb_transfer_type`).
    pub transfer_type: u8,
    /// Its packet size in bytes.
    pub packet_size: u16,
}

/// libusb's number of a kind (libusb 1.0, `libusb_transfer_type`).
fn kind_number(kind: Kind) -> u8
    ensures { result ≡ kind_number kind }
{
    match kind {
        Kind::Control => 0,
        Kind::Isochronous => 1,
        Kind::Bulk => 2,
        Kind::Interrupt => 3,
    }
}

impl EndpointNumbers {
    /// The same in numbers.
    fn of(info: &EndpointInfo) -> EndpointNumbers
        ensures { result ≡ endpoint_numbers info.now }
    {
        EndpointNumbers {
            address: info.address.address(),
            interface: info.interface,
            transfer_type: kind_number(info.kind),
            packet_size: info.packet_size,
        }
    }
}

/// The numbers of a device's interfaces; none where there is no such device.
fn interfaces_of(session: &Session, dev: DeviceNo) -> &[u8]
    ensures { (setup : Setup) (w : World) → ShowsWorld setup session.now.core w → result.now ≡ interfaces_of setup dev }
{
    match session.core.config(dev) {
        None => &[],
        Some(config) => config.interfaces(),
    }
}

/// A device's endpoints; none where there is no such device.
fn endpoints_of(session: &Session, dev: DeviceNo) -> &[EndpointInfo]
    ensures { (setup : Setup) (w : World) → ShowsWorld setup session.now.core w → result.now ≡ endpoints_of setup dev }
{
    match session.core.config(dev) {
        None => &[],
        Some(config) => config.endpoints(),
    }
}

/// The number of this index.
fn number_at(numbers: &[u8], i: usize) -> Option<u8>
    ensures { result ≡ slice_get numbers.now i }
{
    numbers.get(i).copied()
}

/// The endpoint of this index.
fn info_at(infos: &[EndpointInfo], i: usize) -> Option<EndpointInfo>
    ensures { result ≡ slice_get infos.now i }
{
    infos.get(i).copied()
}

/// The number of a device's interface of this index; NotFound past the last.
pub fn interface(session: &Session, dev: DeviceNo, i: usize) -> i32
    ensures { HasInterface dev i result session.now }
{
    match number_at(interfaces_of(session, dev), i) {
        None => NOT_FOUND,
        Some(number) => i32::from(number),
    }
}

/// A device's endpoint of this index; NotFound past the last.
pub fn endpoint(session: &Session, dev: DeviceNo, i: usize, facts: &mut EndpointNumbers) -> i32
    ensures { HasEndpoint dev i result facts.old facts.new session.now }
{
    match info_at(endpoints_of(session, dev), i) {
        None => NOT_FOUND,
        Some(info) => {
            *facts = EndpointNumbers::of(&info);
            0
        }
    }
}
