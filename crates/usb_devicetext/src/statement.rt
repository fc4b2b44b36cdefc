//! What a line says of a device that stands before it: a function for each first word, over the words behind the device.

ghost use Rattle.std.specs.Result.{result_ok};
ghost use Rattle.std.specs.Prelude.{◌≡◌, Some};
ghost use Rattle.usb_scripttext.specs.Results.{ReadsAs};
ghost use Rattle.usb_scripttext.specs.Words.{words_of};
ghost use Rattle.usb_devicetext.specs.Statement.{anew_of, class_of, control_of, descriptor_of, driver_of, gate_of, gate_with, hidden_of, ids_of, lasts_of, leaves_of, pattern_of, release_of, speed_line_of, string_line_of, whole_of};

use crate::answer::{ControlAnswer, answers};
use crate::text::string_descriptor;
use crate::word::{Speed, any_byte, any_word, byte, index, word};
use std::alloc::Global;
use usb_model::{Bytes, EpAddr, Sequence};
use usb_scripttext::number::{address, decimal_u32, interface};
use usb_scripttext::{Expected, LineFault, Problem};

/// The numbers of a device (USB 2.0, 9.6.1).
#[derive(Clone, Copy)]
pub struct Ids {
    /// idVendor
    pub vendor: u16,
    /// idProduct
    pub product: u16,
    /// bcdDevice
    pub release: u16,
}

/// The class of a device (USB 2.0, 9.6.1).
#[derive(Clone, Copy)]
pub struct Class {
    /// bDeviceClass
    pub class: u8,
    /// bDeviceSubClass
    pub subclass: u8,
    /// bDeviceProtocol
    pub protocol: u8,
}

/// A string descriptor, whole, by its index.
#[derive(Drop)]
pub struct Text {
    /// 1 to 255.
    pub index: u8,
    /// Its bytes.
    pub descriptor: Bytes,
}

/// Which setup packets are meant (USB 2.0, 9.3): those with these fields, of which each may be any.
#[derive(Clone, Copy)]
pub struct Pattern {
    /// bmRequestType
    pub kind: Option<u8>,
    /// bRequest
    pub request: Option<u8>,
    /// wValue
    pub value: Option<u16>,
    /// wIndex
    pub index: Option<u16>,
}

/// Answers to requests.
#[derive(Drop)]
pub struct Control {
    /// To which.
    pub pattern: Pattern,
    /// In order; the last one stays.
    pub answers: Sequence<ControlAnswer>,
    /// How many requests were answered by them.
    pub asked: u32,
}

/// What answers wait for.
#[derive(Clone, Copy)]
pub enum Awaited {
    /// Packets that are taken at this endpoint, or answers that are given there, where it is for IN; at 00 control requests, whichever they
    /// are; at the endpoint of the answers itself, for IN, transfers that end there without one.
    At(EpAddr),
    /// Control requests that this means.
    Requests(Pattern),
}

/// Answers that wait for what is to happen elsewhere.
#[derive(Clone, Copy)]
pub struct DeviceGate {
    /// Whose answers wait.
    pub ep: EpAddr,
    /// From which of them on, counted from 0.
    pub place: u32,
    /// For what.
    pub awaited: Awaited,
    /// How many of that.
    pub count: u32,
}

/// When a device is pulled out.
#[derive(Clone, Copy)]
pub struct Departure {
    /// Behind answers of this endpoint.
    pub ep: EpAddr,
    /// How many.
    pub answers: u32,
}

/// What a line says of a device.
#[derive(Drop)]
pub enum Statement {
    /// Its numbers.
    Ids(Ids),
    /// Its class.
    Class(Class),
    /// Its device descriptor, whole.
    Descriptor([u8; 18]),
    /// A string descriptor.
    Text(Text),
    /// Its speed.
    Speed(Speed),
    /// Answers to requests.
    Control(Control),
    /// Answers that wait.
    After(DeviceGate),
    /// When it is pulled out.
    Leaves(Departure),
    /// It isn't there yet.
    Hidden,
    /// It begins anew with each claim.
    Anew,
    /// A reset doesn't begin it anew.
    Lasts,
    /// The system has a driver for this interface.
    Driver(u8),
}

/// The release of a device; 1.00 where it isn't said.
#[tactic(auto, unfolding(crate::specs::Statement::release_of))]
fn release(words: &[&str]) -> Result<u16, LineFault>
    ensures { ReadsAs result (release_of (words_of words.now)) }
{
    match words {
        [] => Ok(0x0100),
        [release] => Ok(word(release)?),
        _ => Err(LineFault::Bad(Problem::FirstWord)),
    }
}

/// The numbers of a device.
#[tactic(auto, unfolding(crate::specs::Statement::ids_of))]
pub(crate) fn ids_line(words: &[&str]) -> Result<Statement, LineFault>
    ensures { ReadsAs result (ids_of (words_of words.now)) }
{
    let [vendor, product, rest @ ..] = words else {
        return Err(LineFault::Bad(Problem::FirstWord));
    };
    Ok(Statement::Ids(Ids {
        vendor: word(vendor)?,
        product: word(product)?,
        release: release(rest)?,
    }))
}

/// The class of a device.
#[tactic(auto, unfolding(crate::specs::Statement::class_of))]
pub(crate) fn class_line(words: &[&str]) -> Result<Statement, LineFault>
    ensures { ReadsAs result (class_of (words_of words.now)) }
{
    let [class, subclass, protocol] = words else {
        return Err(LineFault::Bad(Problem::FirstWord));
    };
    Ok(Statement::Class(Class {
        class: byte(class)?,
        subclass: byte(subclass)?,
        protocol: byte(protocol)?,
    }))
}

/// The 18 bytes of a device descriptor; None where the word is none of these.
#[tactic(auto, unfolding(crate::specs::Statement::whole_of))]
pub(crate) fn whole(digits: &str) -> Option<[u8; 18]>
    ensures { result ≡ whole_of digits.now }
{
    let mut bytes = [0u8; 18];
    hex::decode_to_slice(digits, &mut bytes).ok()?;
    Some(bytes)
}

/// The device descriptor.
#[tactic(auto, unfolding(crate::specs::Statement::descriptor_of))]
pub(crate) fn descriptor_line(words: &[&str]) -> Result<Statement, LineFault>
    ensures { ReadsAs result (descriptor_of (words_of words.now)) }
{
    let [digits] = words else {
        return Err(LineFault::Bad(Problem::FirstWord));
    };
    Ok(Statement::Descriptor(whole(digits).ok_or(Expected::Bytes)?))
}

/// A string descriptor.
#[tactic(auto, unfolding(crate::specs::Statement::string_line_of))]
pub(crate) fn string_line(alloc: Global, words: &[&str]) -> Result<Statement, LineFault>
    ensures { ReadsAs result (string_line_of (words_of words.now)) }
{
    let [number, words @ ..] = words else {
        return Err(LineFault::Bad(Problem::FirstWord));
    };
    let index = index(number)?;
    let descriptor = string_descriptor(alloc, words)?;
    Ok(Statement::Text(Text { index, descriptor }))
}

/// The speed of a device.
#[tactic(auto, unfolding(crate::specs::Statement::speed_line_of))]
pub(crate) fn speed_line(words: &[&str]) -> Result<Statement, LineFault>
    ensures { ReadsAs result (speed_line_of (words_of words.now)) }
{
    let [word] = words else {
        return Err(LineFault::Bad(Problem::FirstWord));
    };
    Ok(Statement::Speed(Speed::read(word).ok_or(Problem::FirstWord)?))
}

/// Which requests are meant.
#[tactic(auto, unfolding(crate::specs::Statement::pattern_of))]
fn pattern_in(kind: &str, request: &str, value: &str, index: &str) -> Result<Pattern, Expected>
    ensures { result_ok result ≡ pattern_of kind.now request.now value.now index.now }
{
    Ok(Pattern {
        kind: any_byte(kind)?,
        request: any_byte(request)?,
        value: any_word(value)?,
        index: any_word(index)?,
    })
}

/// Answers to requests.
#[tactic(auto, unfolding(crate::specs::Statement::control_of))]
pub(crate) fn control_line(alloc: Global, words: &[&str]) -> Result<Statement, LineFault>
    ensures { ReadsAs result (control_of (words_of words.now)) }
{
    let [kind, request, value, index, words @ ..] = words else {
        return Err(LineFault::Bad(Problem::FirstWord));
    };
    let pattern = pattern_in(kind, request, value, index)?;
    let answers = answers(alloc, pattern.kind, words)?;
    Ok(Statement::Control(Control {
        pattern,
        answers,
        asked: 0,
    }))
}

/// The answers of an endpoint from a place on wait for so many of this.
fn gate_statement(
    ep: &str,
    place: &str,
    awaited: Awaited,
    count: &str,
) -> Result<Statement, Expected>
    ensures { result_ok result ≡ gate_with ep.now place.now (Some awaited) count.now }
{
    Ok(Statement::After(DeviceGate {
        ep: address(ep)?,
        place: decimal_u32(place).ok_or(Expected::Number)?,
        awaited,
        count: decimal_u32(count).ok_or(Expected::Number)?,
    }))
}

/// Answers that wait: for packets, answers or transfers at an endpoint, or for requests.
#[tactic(auto, unfolding(crate::specs::Statement::gate_of))]
pub(crate) fn gate_line(words: &[&str]) -> Result<Statement, LineFault>
    ensures { ReadsAs result (gate_of (words_of words.now)) }
{
    match words {
        [ep, place, other, count] => {
            let awaited = Awaited::At(address(other)?);
            Ok(gate_statement(ep, place, awaited, count)?)
        }
        [ep, place, kind, request, value, index, count] => {
            let awaited = Awaited::Requests(pattern_in(kind, request, value, index)?);
            Ok(gate_statement(ep, place, awaited, count)?)
        }
        _ => Err(LineFault::Bad(Problem::FirstWord)),
    }
}

/// When a device is pulled out.
#[tactic(auto, unfolding(crate::specs::Statement::leaves_of))]
pub(crate) fn leaves_line(words: &[&str]) -> Result<Statement, LineFault>
    ensures { ReadsAs result (leaves_of (words_of words.now)) }
{
    let [ep, answers] = words else {
        return Err(LineFault::Bad(Problem::FirstWord));
    };
    Ok(Statement::Leaves(Departure {
        ep: address(ep)?,
        answers: decimal_u32(answers).ok_or(Expected::Number)?,
    }))
}

/// A device isn't there yet.
#[tactic(auto, unfolding(crate::specs::Statement::hidden_of))]
pub(crate) fn hidden_line(words: &[&str]) -> Result<Statement, LineFault>
    ensures { ReadsAs result (hidden_of (words_of words.now)) }
{
    let [] = words else {
        return Err(LineFault::Bad(Problem::FirstWord));
    };
    Ok(Statement::Hidden)
}

/// A device begins anew each time that one of its interfaces is claimed.
#[tactic(auto, unfolding(crate::specs::Statement::anew_of))]
pub(crate) fn anew_line(words: &[&str]) -> Result<Statement, LineFault>
    ensures { ReadsAs result (anew_of (words_of words.now)) }
{
    let [] = words else {
        return Err(LineFault::Bad(Problem::FirstWord));
    };
    Ok(Statement::Anew)
}

/// A device goes on where it stands when it is reset.
#[tactic(auto, unfolding(crate::specs::Statement::lasts_of))]
pub(crate) fn lasts_line(words: &[&str]) -> Result<Statement, LineFault>
    ensures { ReadsAs result (lasts_of (words_of words.now)) }
{
    let [] = words else {
        return Err(LineFault::Bad(Problem::FirstWord));
    };
    Ok(Statement::Lasts)
}

/// The system has a driver for an interface.
#[tactic(auto, unfolding(crate::specs::Statement::driver_of))]
pub(crate) fn driver_line(words: &[&str]) -> Result<Statement, LineFault>
    ensures { ReadsAs result (driver_of (words_of words.now)) }
{
    let [number] = words else {
        return Err(LineFault::Bad(Problem::FirstWord));
    };
    Ok(Statement::Driver(interface(number)?))
}
