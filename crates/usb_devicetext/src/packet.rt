//! Setup packets (USB 2.0, 9.3).

ghost use Rattle.std.specs.Prelude.{◌≡◌};
ghost use Rattle.usb_devicetext.specs.Packet.{needs_of, packet_of};

use crate::word::both;

/// A setup packet (USB 2.0, 9.3).
#[derive(Clone, Copy, PartialEq, Eq, Debug)]
pub struct SetupPacket {
    /// bmRequestType: bit 7 is set where the request reads, bits 6 and 5 are its type, the others its recipient.
    pub kind: u8,
    /// bRequest
    pub request: u8,
    /// wValue
    pub value: u16,
    /// wIndex
    pub index: u16,
    /// wLength: the most bytes that are read, or as many as are written.
    pub length: u16,
}

/// What a host has to hold for a request, as Linux has it (usbfs, `check_ctrlrecip`).
#[derive(Clone, Copy, PartialEq, Eq, Debug)]
pub enum Needs {
    /// Nothing.
    Nothing,
    /// The interface of this number.
    Interface(u8),
    /// The interface of the endpoint of this address.
    Endpoint(u8),
}

impl SetupPacket {
    /// The setup packet of 8 bytes; numbers of 16 bits have their lower byte first.
    pub fn read(bytes: &[u8; 8]) -> SetupPacket
        ensures { result ≡ packet_of bytes.now }
    {
        SetupPacket {
            kind: bytes[0],
            request: bytes[1],
            value: both(bytes[2], bytes[3]),
            index: both(bytes[4], bytes[5]),
            length: both(bytes[6], bytes[7]),
        }
    }

    /// What a host has to hold: where a standard or class request is to an interface, or to an endpoint but 0, that.
    #[tactic(auto, unfolding(crate::specs::Packet::needs_of))]
    pub fn needs(&self) -> Needs
        ensures { result ≡ needs_of self.now }
    {
        let low = (self.index % 256) as u8;
        if self.kind / 32 % 4 == 2 {
            return Needs::Nothing;
        }
        match self.kind % 32 {
            1 => Needs::Interface(low),
            2 if low % 16 != 0 => Needs::Endpoint(low),
            _ => Needs::Nothing,
        }
    }
}
