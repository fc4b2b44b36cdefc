//! Descriptors as a table, in the layout of `lsusb -v`: one printer for the tables of all descriptors.

use crate::field::{DescriptorField, Margin};
use crate::kinds::{Place, layout_of, pipe};
use crate::layouts::{HID_COUNTED, Layout, Rest, device};
use crate::names::pipe_name;
use crate::piece::byte_at;
use crate::stop::{StopReason, TableStop};
use crate::text::DescriptorText;
use std::alloc::{AllocError, Global};

/// The unit of MaxPower in milliamperes (USB 2.0, table 9-10).
const UNIT: u64 = 2;

/// That of a device of USB 3 (USB 3.2, table 9-22).
const SUPER_SPEED_UNIT: u64 = 8;

/// A table that is written descriptor by descriptor.
#[derive(Drop)]
pub(crate) struct Table {
    text: DescriptorText,
    alloc: Global,
    /// Behind which descriptors the next one stands.
    place: Place,
    /// The unit of MaxPower.
    unit: u64,
    /// Why it ends before the input does, if so.
    stop: Option<TableStop>,
}

impl Table {
    /// An empty table. Takes no memory.
    pub(crate) fn new(alloc: Global) -> Table {
        Table {
            text: DescriptorText::new(alloc),
            alloc,
            place: Place::new(),
            unit: UNIT,
            stop: None,
        }
    }

    /// Its text, and why it ends before the input does.
    pub(crate) fn into_parts(self) -> (Vec<u8>, Option<TableStop>) {
        let Table {
            text,
            alloc: _,
            place: _,
            unit: _,
            stop,
        } = self;
        (text.into_bytes(), stop)
    }

    /// Puts the fields of a descriptor behind it, as far as it has them.
    fn put_fields(
        &mut self,
        blanks: &'static str,
        fields: &[DescriptorField],
        bytes: &[u8],
    ) -> Result<(), AllocError> {
        let margin = Margin {
            blanks,
            unit: self.unit,
        };
        for field in fields {
            if field.end() <= bytes.len() {
                field.put(&mut self.text, self.alloc, margin, bytes)?;
            }
        }
        Ok(())
    }

    /// Puts behind it that a descriptor has fewer bytes than its table, or than it says itself.
    fn put_lack(&mut self, margin: &str, has: usize, needs: usize) -> Result<(), AllocError> {
        let line = format!(in self.alloc; "{margin}** cut off: {has} of {needs} bytes\n")?;
        self.text.put(line.as_str())
    }

    /// Puts a descriptor behind it, by its table.
    fn put_layout(&mut self, layout: &Layout, bytes: &[u8]) -> Result<(), AllocError> {
        self.text.put(layout.title)?;
        self.put_fields(layout.margin, layout.fields, bytes)?;
        self.put_rest(layout, bytes)?;
        let needs = needed(layout, bytes);
        if bytes.len() < needs {
            self.put_lack(layout.margin, bytes.len(), needs)?;
        }
        Ok(())
    }

    /// Puts what stands behind the fields of a descriptor behind it.
    fn put_rest(&mut self, layout: &Layout, bytes: &[u8]) -> Result<(), AllocError> {
        let more = bytes.get(layout.length()..).unwrap_or(&[]);
        match layout.rest {
            Rest::Unprinted => Ok(()),
            Rest::Junk => self.put_junk(layout.margin, more),
            Rest::Counted => self.put_counted(layout.margin, more, byte_at(bytes, 5)),
            Rest::Interfaces => self.put_interfaces(layout.margin, more),
        }
    }

    /// Puts the descriptors that a HID descriptor counts behind it, as many as it says, and what stands behind them.
    fn put_counted(
        &mut self,
        margin: &'static str,
        more: &[u8],
        count: u8,
    ) -> Result<(), AllocError> {
        let counted = 3 * usize::from(count);
        for one in more.chunks(3).take(usize::from(count)) {
            self.put_fields(margin, &HID_COUNTED, one)?;
        }
        self.put_junk("        ", more.get(counted..).unwrap_or(&[]))
    }

    /// Puts the numbers of interfaces behind it, if there are any.
    fn put_interfaces(&mut self, margin: &str, numbers: &[u8]) -> Result<(), AllocError> {
        if numbers.is_empty() {
            return Ok(());
        }
        self.text.put(margin)?;
        self.text.put("bSlaveInterface        ")?;
        for number in numbers {
            let number = *number;
            let text = format!(in self.alloc; " {number}")?;
            self.text.put(text.as_str())?;
        }
        self.text.put("\n")
    }

    /// Puts bytes behind it that no field has, if there are any.
    fn put_junk(&mut self, margin: &str, bytes: &[u8]) -> Result<(), AllocError> {
        if bytes.is_empty() {
            return Ok(());
        }
        self.text.put(margin)?;
        self.text.put("junk at descriptor end:")?;
        self.put_bytes(bytes)
    }

    /// Puts bytes behind it, each behind a space.
    fn put_bytes(&mut self, bytes: &[u8]) -> Result<(), AllocError> {
        for byte in bytes {
            let value = *byte;
            let text = format!(in self.alloc; " {value:02x}")?;
            self.text.put(text.as_str())?;
        }
        self.text.put("\n")
    }

    /// Puts the bytes of a descriptor that isn't known behind it.
    fn put_other(&mut self, bytes: &[u8]) -> Result<(), AllocError> {
        self.text.put(self.place.unknown(bytes))?;
        self.put_bytes(bytes)
    }

    /// Puts what a pipe of a mass storage device carries behind it.
    fn put_pipe(&mut self, number: u8) -> Result<(), AllocError> {
        let name = pipe_name(number);
        let line = format!(in self.alloc; "        {name} (0x{number:02x})\n")?;
        self.text.put(line.as_str())
    }

    /// Puts a device descriptor behind it.
    pub(crate) fn put_device(&mut self, bytes: &[u8]) -> Result<(), AllocError> {
        if byte_at(bytes, 3) >= 3 {
            self.unit = SUPER_SPEED_UNIT;
        }
        self.put_layout(&device(), bytes)
    }

    /// Puts a descriptor behind it, by its type and the descriptors that it stands behind. One that is too short for its table is printed as
    /// far as it goes, and then that it is cut off.
    pub(crate) fn put_piece(&mut self, bytes: &[u8]) -> Result<(), AllocError> {
        let found = layout_of(self.place, bytes);
        let number = pipe(self.place, bytes);
        self.place = self.place.behind(bytes);
        match (found, number) {
            (Some(layout), _) => self.put_layout(&layout, bytes),
            (None, Some(number)) => self.put_pipe(number),
            (None, None) => self.put_other(bytes),
        }
    }

    /// Puts behind it that the bytes from this one on aren't read, for a reason, and what they are.
    pub(crate) fn put_stop(
        &mut self,
        at: usize,
        why: StopReason,
        bytes: &[u8],
    ) -> Result<(), AllocError> {
        let stop = TableStop { at, why };
        self.stop = Some(stop);
        let text = format!(in self.alloc; "** {stop}")?;
        self.text.put(text.as_str())?;
        if !bytes.is_empty() {
            self.text.put(":")?;
        }
        self.put_bytes(bytes)
    }
}

/// How many bytes a descriptor should have: those of its table, of what it counts, and as many as it says itself.
fn needed(layout: &Layout, bytes: &[u8]) -> usize {
    let counted = match layout.rest {
        Rest::Counted => 3 * usize::from(byte_at(bytes, 5)),
        Rest::Unprinted | Rest::Junk | Rest::Interfaces => 0,
    };
    let table = layout.length().saturating_add(counted);
    table.max(usize::from(byte_at(bytes, 0)))
}
