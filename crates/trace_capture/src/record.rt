//! The record of an event, and what stands in front of all records.

ghost use Rattle.std.specs.Prelude.{◌≡◌, ◌++◌, IfOk, OnErr, OnOk};
ghost use Rattle.usb_model.specs.Setup.{is_in};
ghost use Rattle.trace_capture.specs.Event.{bit, data_flag, event_bytes, events_bytes, file_header, flags_number, how, kind_number, record_header, rest, setup_bytes, setup_flag, type_letter, what, who};

use crate::control_setup::ControlSetup;
use crate::event::{CaptureEvent, EventType, UrbFlags};
use crate::field::put;
use std::alloc::{AllocError, Global};
use usb_model::{EpAddr, Kind};

/// How many bytes of a record stand before its data, without the first 16.
const HEADER: usize = 64;

/// The bytes in front of all records (pcap-savefile(5)).
pub fn file_header() -> [u8; 24]
    ensures { result ≡ file_header }
{
    [
        0xd4, 0xc3, 0xb2, 0xa1, // times in microseconds, numbers with their lowest byte first
        2, 0, 4, 0, // version 2.4
        0, 0, 0, 0, // no time zone
        0, 0, 0, 0, // no accuracy of times
        64, 0, 4, 0, // the longest record: 64 + 262,144 bytes
        220, 0, 0, 0, // LINKTYPE_USB_LINUX_MMAPPED
    ]
}

/// Puts the records of events behind the bytes, in order. Without memory nothing changes.
pub fn append_all(events: &[CaptureEvent], out: &mut Vec<u8>) -> Result<(), AllocError>
    ensures records { OnOk result (out.new.items ≡ out.old.items ++ events_bytes events.now) }
    ensures kept { OnErr result (out.new.items ≡ out.old.items) }
{
    let mut records = Vec::new(*out.allocator());
    for event in events {
        event.append_to(&mut records)?;
    }
    out.extend_from_slice(records.as_slice())
}

impl EventType {
    /// The letter S or C.
    fn letter(self) -> u64
        ensures { result ≡ type_letter self }
    {
        match self {
            EventType::Submission => 0x53,
            EventType::Callback => 0x43,
        }
    }

    /// Whether data may be there (0), are still to be read (`<`), or were written before (`>`).
    fn data_flag(self, inward: bool) -> u64
        ensures { result ≡ data_flag self inward }
    {
        match (self, inward) {
            (EventType::Submission, true) => 0x3c,
            (EventType::Callback, false) => 0x3e,
            _ => 0,
        }
    }
}

/// usbmon's number of a kind.
fn number_of(kind: Kind) -> u64
    ensures { result ≡ kind_number kind }
{
    match kind {
        Kind::Isochronous => 0,
        Kind::Interrupt => 1,
        Kind::Control => 2,
        Kind::Bulk => 3,
    }
}

/// Whether setup data are there (0) or not (a dash).
fn setup_flag(setup: Option<ControlSetup>) -> u64
    ensures { result ≡ setup_flag setup }
{
    match setup {
        Some(_) => 0,
        None => 0x2d,
    }
}

/// A bit as a number.
fn bit(set: bool) -> u64
    ensures { result ≡ bit set }
{
    u64::from(set)
}

/// Linux's number of the flags.
fn flags_number(flags: UrbFlags, ep: EpAddr) -> u64
    ensures { result ≡ flags_number flags (is_in ep) }
{
    bit(flags.short_not_ok) + 0x40 * bit(flags.zero_packet) + 0x200 * bit(ep.is_in())
}

/// Puts the eight bytes of setup data, or as many zeros, behind the bytes.
fn put_setup(out: &mut Vec<u8>, setup: Option<ControlSetup>) -> Result<(), AllocError>
    ensures { OnOk result (out.new.items ≡ out.old.items ++ setup_bytes setup) }
{
    let Some(setup) = setup else {
        return put(out, 8, 0);
    };
    put(out, 1, u64::from(setup.request_type))?;
    put(out, 1, u64::from(setup.request))?;
    put(out, 2, u64::from(setup.value))?;
    put(out, 2, u64::from(setup.index))?;
    put(out, 2, u64::from(setup.length))
}

impl CaptureEvent {
    /// Puts its record behind the bytes. Without memory nothing changes.
    pub fn append_to(&self, out: &mut Vec<u8>) -> Result<(), AllocError>
        ensures record { OnOk result (out.new.items ≡ out.old.items ++ event_bytes self.now) }
        ensures kept { OnErr result (out.new.items ≡ out.old.items) }
    {
        let record = self.record(*out.allocator())?;
        out.extend_from_slice(record.as_slice())
    }

    /// Its record.
    #[tactic(auto, unfolding(crate::specs::Event::event_bytes))]
    fn record(&self, alloc: Global) -> Result<Vec<u8>, AllocError>
        ensures { IfOk result (λ bytes. bytes.items ≡ event_bytes self.now) }
    {
        let mut out = Vec::new(alloc);
        self.put_record_header(&mut out)?;
        self.put_who(&mut out)?;
        self.put_how(&mut out)?;
        self.put_what(&mut out)?;
        self.put_rest(&mut out)?;
        out.extend_from_slice(self.bytes.as_slice())?;
        Ok(out)
    }

    /// Puts when it was, and how many bytes follow.
    #[tactic(auto, unfolding(crate::specs::Event::record_header))]
    fn put_record_header(&self, out: &mut Vec<u8>) -> Result<(), AllocError>
        ensures { OnOk result (out.new.items ≡ out.old.items ++ record_header self.now) }
    {
        let length = (HEADER + self.bytes.as_slice().len()) as u64;
        put(out, 4, self.line / 1_000_000)?;
        put(out, 4, self.line % 1_000_000)?;
        put(out, 4, length)?;
        put(out, 4, length)
    }

    /// Puts its id, its type, its endpoint and device, and what follows.
    #[tactic(auto, unfolding(crate::specs::Event::who))]
    fn put_who(&self, out: &mut Vec<u8>) -> Result<(), AllocError>
        ensures { OnOk result (out.new.items ≡ out.old.items ++ who self.now) }
    {
        put(out, 8, self.id.number())?;
        put(out, 1, self.event_type.letter())?;
        put(out, 1, number_of(self.kind))?;
        put(out, 1, u64::from(self.ep.address()))?;
        put(out, 1, u64::from(self.device.number()) + 1)?;
        put(out, 2, 1)?;
        put(out, 1, setup_flag(self.setup))?;
        put(out, 1, self.event_type.data_flag(self.ep.is_in()))
    }

    /// Puts when it was, and how the transfer stands.
    #[tactic(auto, unfolding(crate::specs::Event::how))]
    fn put_how(&self, out: &mut Vec<u8>) -> Result<(), AllocError>
        ensures { OnOk result (out.new.items ≡ out.old.items ++ how self.now) }
    {
        put(out, 8, self.line / 1_000_000)?;
        put(out, 4, self.line % 1_000_000)?;
        put(out, 4, 4_294_967_296 - self.errno.number())
    }

    /// Puts how many bytes it is about, and the setup data.
    #[tactic(auto, unfolding(crate::specs::Event::what))]
    fn put_what(&self, out: &mut Vec<u8>) -> Result<(), AllocError>
        ensures { OnOk result (out.new.items ≡ out.old.items ++ what self.now) }
    {
        put(out, 4, self.length as u64)?;
        put(out, 4, self.bytes.len() as u64)?;
        put_setup(out, self.setup)
    }

    /// Puts that it has no interval and no start frame, its flags, and that it has no isochronous descriptors.
    #[tactic(auto, unfolding(crate::specs::Event::rest))]
    fn put_rest(&self, out: &mut Vec<u8>) -> Result<(), AllocError>
        ensures { OnOk result (out.new.items ≡ out.old.items ++ rest self.now) }
    {
        put(out, 4, 0)?;
        put(out, 4, 0)?;
        put(out, 4, flags_number(self.flags, self.ep))?;
        put(out, 4, 0)
    }
}
