//! Whose device it is.

ghost use Rattle.std.specs.Prelude.{◌≡◌, Some};
ghost use Rattle.trace_faults.specs.CaptureFaults.{hex_number, ids_text};

use std::fmt;
use usb_model::EpAddr;

/// Whose device it is: its vendor and its product (USB 2.0, 9.6.1).
#[derive(Clone, Copy, PartialEq, Eq, Debug)]
pub struct DeviceIds {
    /// The vendor's number.
    pub vendor: u16,
    /// The product's, among those of the vendor.
    pub product: u16,
}

/// A number as lsusb has it: four hexadecimal digits.
#[derive(Clone, Copy)]
struct HexNumber(u16);

impl fmt::Display for HexNumber {
    ghost output = { λ number. Some (hex_number number.0) };

    fn fmt<W: fmt::Write>(&self, f: &mut fmt::Formatter<W>) -> fmt::Result {
        // An address is printed as any byte: two hexadecimal digits.
        let number = self.0;
        let high = EpAddr::new((number / 256) as u8);
        let low = EpAddr::new((number % 256) as u8);
        write!(f, "{high}{low}")
    }
}

/// As lsusb has them.
impl fmt::Display for DeviceIds {
    ghost output = { λ ids. Some (ids_text ids) };

    fn fmt<W: fmt::Write>(&self, f: &mut fmt::Formatter<W>) -> fmt::Result {
        let (vendor, product) = (HexNumber(self.vendor), HexNumber(self.product));
        write!(f, "{vendor}:{product}")
    }
}
