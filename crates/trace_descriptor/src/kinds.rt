//! Which table a descriptor has: by its type, and by the interface and the endpoint that it stands behind.

use crate::layouts::{
    Layout, association, ccid, companion, configuration, dfu, endpoint, functional, hid, interface,
};
use crate::piece::byte_at;

/// The type of a configuration descriptor (USB 2.0, table 9-5).
const CONFIGURATION: u8 = 2;

/// That of an interface descriptor.
const INTERFACE: u8 = 4;

/// That of an endpoint descriptor.
const ENDPOINT: u8 = 5;

/// That of an interface association (USB 3.2, table 9-6).
const ASSOCIATION: u8 = 11;

/// That of a descriptor of an interface's class, as a HID descriptor; a class may have its own.
const OF_CLASS: u8 = 0x21;

/// That of another one (USB Common Class Specification 1.0, 3.10).
const OF_INTERFACE: u8 = 0x24;

/// That of the companion of a SuperSpeed endpoint (USB 3.2, table 9-6).
const COMPANION: u8 = 0x30;

/// The interface and the endpoint behind which a descriptor stands.
#[derive(Clone, Copy)]
pub(crate) struct Place {
    /// Class and subclass of the interface, if there is one.
    interface: Option<(u8, u8)>,
    /// The attributes of its endpoint, if there is one.
    endpoint: Option<u8>,
}

impl Place {
    /// Behind nothing.
    pub(crate) fn new() -> Place {
        Place {
            interface: None,
            endpoint: None,
        }
    }

    /// The place behind one more descriptor.
    pub(crate) fn behind(self, bytes: &[u8]) -> Place {
        match byte_at(bytes, 1) {
            CONFIGURATION => Place::new(),
            INTERFACE => Place {
                interface: Some((byte_at(bytes, 5), byte_at(bytes, 6))),
                endpoint: None,
            },
            ENDPOINT => Place {
                endpoint: Some(byte_at(bytes, 3)),
                ..self
            },
            _ => self,
        }
    }

    /// What stands in front of the bytes of a descriptor at this place that has no table.
    pub(crate) fn unknown(self, bytes: &[u8]) -> &'static str {
        match (byte_at(bytes, 1), self.endpoint, self.interface) {
            (OF_INTERFACE, _, Some((0x02 | 0x0a, _))) => "      UNRECOGNIZED CDC: ",
            (OF_INTERFACE, Some(_), _) => "        INTERFACE CLASS: ",
            (OF_CLASS, Some(_), _) => "        DEVICE CLASS: ",
            (_, Some(_), _) => "        ** UNRECOGNIZED: ",
            (_, None, Some(_)) => "      ** UNRECOGNIZED: ",
            (_, None, None) => "    ** UNRECOGNIZED: ",
        }
    }
}

/// The table of a descriptor of an interface's class.
fn class_layout(class: u8, subclass: u8, bytes: &[u8]) -> Option<Layout> {
    match (class, subclass, byte_at(bytes, 1)) {
        (0x02 | 0x0a, _, OF_INTERFACE) if bytes.len() > 2 => functional(byte_at(bytes, 2)),
        (0x03, _, OF_CLASS) => Some(hid()),
        (0x0b, _, OF_CLASS | OF_INTERFACE) => Some(ccid()),
        (0xfe, 0x01, OF_CLASS) => Some(dfu(bytes.len())),
        _ => None,
    }
}

/// The table of a descriptor at a place; None where it has none.
pub(crate) fn layout_of(place: Place, bytes: &[u8]) -> Option<Layout> {
    match (byte_at(bytes, 1), place.endpoint, place.interface) {
        (CONFIGURATION, _, _) => Some(configuration()),
        (INTERFACE, _, _) => Some(interface()),
        (ENDPOINT, _, _) => Some(endpoint(bytes.len())),
        (ASSOCIATION, _, _) => Some(association()),
        (COMPANION, Some(attributes), _) => Some(companion(attributes)),
        (_, _, Some((class, subclass))) => class_layout(class, subclass, bytes),
        _ => None,
    }
}

/// The number of a pipe, where that is what a descriptor says behind an endpoint of a mass storage device (UAS 1.0, 5.3.3.5).
pub(crate) fn pipe(place: Place, bytes: &[u8]) -> Option<u8> {
    match (place.endpoint, place.interface, bytes) {
        (Some(_), Some((0x08, _)), [4, OF_INTERFACE, number, _]) => Some(*number),
        _ => None,
    }
}
