//! What a control transfer asks for.

ghost use Rattle.std.specs.Prelude.{◌≡◌};
ghost use Rattle.usb_model.specs.Setup.{is_in};
ghost use Rattle.trace_capture.specs.Control.{get_configuration, set_configuration, set_interface, clear_halt, control_endpoint};

use usb_model::EpAddr;

/// The setup data of a control transfer (USB 2.0, 9.3).
#[derive(Clone, Copy, PartialEq, Eq, Debug)]
pub struct ControlSetup {
    /// bmRequestType: the direction in bit 7, who defines it, what it is about.
    pub request_type: u8,
    /// bRequest: which request.
    pub request: u8,
    /// wValue.
    pub value: u16,
    /// wIndex: an interface or an endpoint.
    pub index: u16,
    /// wLength: how many bytes are to move.
    pub length: u16,
}

impl ControlSetup {
    /// GET_DESCRIPTOR of a configuration, so many bytes of it (USB 2.0, 9.4.3).
    pub fn get_configuration(length: u16) -> ControlSetup
        ensures { result ≡ get_configuration length }
    {
        ControlSetup {
            request_type: 0x80,
            request: 6,
            value: 0x0200,
            index: 0,
            length,
        }
    }

    /// SET_CONFIGURATION (USB 2.0, 9.4.7).
    pub fn set_configuration(value: u8) -> ControlSetup
        ensures { result ≡ set_configuration value }
    {
        ControlSetup {
            request_type: 0,
            request: 9,
            value: u16::from(value),
            index: 0,
            length: 0,
        }
    }

    /// SET_INTERFACE to alternate setting 0 (USB 2.0, 9.4.10).
    pub fn set_interface(i: u8) -> ControlSetup
        ensures { result ≡ set_interface i }
    {
        ControlSetup {
            request_type: 1,
            request: 11,
            value: 0,
            index: u16::from(i),
            length: 0,
        }
    }

    /// CLEAR_FEATURE of ENDPOINT_HALT (USB 2.0, 9.4.1).
    pub fn clear_halt(ep: EpAddr) -> ControlSetup
        ensures { result ≡ clear_halt ep }
    {
        ControlSetup {
            request_type: 2,
            request: 1,
            value: 0,
            index: u16::from(ep.address()),
            length: 0,
        }
    }

    /// The default control endpoint, in its direction.
    pub fn endpoint(self) -> EpAddr
        ensures { result ≡ control_endpoint self }
    {
        if self.request_type >= 128 {
            EpAddr::new(0x80)
        } else {
            EpAddr::new(0)
        }
    }
}
