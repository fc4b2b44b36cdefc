//! What one descriptor says, of the fields that are read (USB 2.0, 9.6.5 and 9.6.6).

ghost use Rattle.std.specs.Prelude.{◌≡◌, ◌==◌, ◌+◌, ◌*◌, ◌/◌, ◌%◌};
ghost use Rattle.usb_descriptors.specs.Grammar.{kind_by};
ghost use Rattle.usb_descriptors.specs.Descriptors.{descriptor_of};

use crate::fault::DescFault;
use crate::piece::Piece;
use usb_model::{EndpointInfo, EpAddr, Kind};

/// The type of a configuration descriptor (USB 2.0, table 9-5).
pub(crate) const CONFIGURATION: u8 = 2;

/// That of an interface descriptor.
const INTERFACE: u8 = 4;

/// That of an endpoint descriptor.
const ENDPOINT: u8 = 5;

/// A descriptor behind the configuration's own.
pub(crate) enum Descriptor {
    Interface(Interface),
    Endpoint(Endpoint),
    /// One of any other type, which is passed over.
    Other,
}

/// An interface descriptor (USB 2.0, table 9-12).
#[derive(Clone, Copy)]
pub(crate) struct Interface {
    /// bInterfaceNumber.
    pub(crate) number: u8,
    /// bAlternateSetting.
    pub(crate) setting: u8,
}

/// An endpoint descriptor (USB 2.0, table 9-13).
#[derive(Clone, Copy)]
pub(crate) struct Endpoint {
    /// bEndpointAddress, with bits 6..4 as 0.
    pub(crate) address: EpAddr,
    /// Bits 1..0 of bmAttributes.
    pub(crate) kind: Kind,
    /// Bits 10..0 of wMaxPacketSize.
    pub(crate) packet_size: u16,
}

impl Descriptor {
    /// What a descriptor says by itself. WrongType of a configuration's, BadLength of an interface's below 9 bytes
    /// and of an endpoint's below 7.
    pub(crate) fn read(piece: &Piece<'_>) -> Result<Descriptor, DescFault>
        ensures { result ≡ descriptor_of piece.now }
    {
        match piece.bytes() {
            [_, CONFIGURATION, ..] => Err(DescFault::WrongType(piece.at())),
            [_, INTERFACE, number, setting, _, _, _, _, _, ..] => Ok(Descriptor::Interface(
                Interface {
                    number: *number,
                    setting: *setting,
                },
            )),
            [_, ENDPOINT, address, attributes, low, high, _, ..] => Ok(Descriptor::Endpoint(
                Endpoint::new(*address, *attributes, u16::from_le_bytes([*low, *high])),
            )),
            [_, INTERFACE | ENDPOINT, ..] => Err(DescFault::BadLength(piece.at())),
            _ => Ok(Descriptor::Other),
        }
    }
}

impl Endpoint {
    /// An endpoint by bEndpointAddress, bmAttributes and wMaxPacketSize.
    fn new(address: u8, attributes: u8, packet_size: u16) -> Endpoint
        ensures address { result.address ≡ address / 128 * 128 + address % 16 }
        ensures kind { result.kind ≡ kind_by (attributes % 4) }
        ensures packet_size { result.packet_size ≡ packet_size % 2048 }
    {
        Endpoint {
            address: EpAddr::new(address & 0x8f),
            kind: kind_of(attributes),
            packet_size: packet_size % 2048,
        }
    }

    /// Whether its number is 0, which only the default control endpoint has (USB 2.0, 5.3.1.1).
    pub(crate) fn has_number_0(&self) -> bool
        ensures { result ≡ (self.now.address % 16 == 0) }
    {
        self.address.number() == 0
    }

    /// What a configuration says of it under this interface.
    pub(crate) fn info(self, interface: u8) -> EndpointInfo
        ensures { result ≡ record {
          address = self.address;
          interface = interface;
          kind = self.kind;
          packet_size = self.packet_size;
        } }
    {
        EndpointInfo {
            address: self.address,
            interface,
            kind: self.kind,
            packet_size: self.packet_size,
        }
    }
}

/// The kind that bmAttributes gives.
fn kind_of(attributes: u8) -> Kind
    ensures { result ≡ kind_by (attributes % 4) }
{
    match attributes % 4 {
        0 => Kind::Control,
        1 => Kind::Isochronous,
        2 => Kind::Bulk,
        _ => Kind::Interrupt,
    }
}
