//! Which transfer an event is of.

ghost use Rattle.std.specs.Prelude.{◌≡◌};
ghost use Rattle.trace_capture.specs.Event.{id_number};

use usb_model::Name;

/// How many ids a handle has: 2^32.
const IDS: u64 = 4_294_967_296;

/// The first id of control transfers: 2^64 - 2^32.
const CONTROL_IDS: u64 = 18_446_744_069_414_584_320;

/// Which transfer an event is of: its submission and its callback have one (Linux, Documentation/usb/usbmon.rst, "URB Tag").
#[derive(Clone, Copy, PartialEq, Eq, Debug)]
pub enum UrbId {
    /// The handle's transfer of this number.
    Transfer { h: Name, n: u64 },
    /// The control transfer of a line; a device's line has a second one.
    Control { line: u64, second: bool },
}

impl UrbId {
    /// Its number: 2^32 for each handle, of which the first has those from 2^32 on, so that none is 0; and the last 2^32 for
    /// control transfers, two a line.
    pub fn number(self) -> u64
        ensures { result ≡ id_number self }
    {
        match self {
            UrbId::Transfer { h, n } => IDS * (u64::from(h.number()) + 1) + n % IDS,
            UrbId::Control { line, second } => {
                CONTROL_IDS + (2 * (line % IDS) + u64::from(second)) % IDS
            }
        }
    }
}
