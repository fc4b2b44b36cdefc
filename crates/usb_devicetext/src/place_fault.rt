//! Why a line of a good form can't stand where it does: what is wrong with it beside the devices of its text.

ghost use Rattle.std.specs.Prelude.{◌≡◌, IfSome, Some};
ghost use Rattle.std.specs.Option.{option_copied};
ghost use Rattle.usb_scripttext.specs.Words.{words_of};
ghost use Rattle.usb_devicetext.specs.declared.topic.Topic.TheVariants as topic;
ghost use Rattle.usb_devicetext.specs.FormFault.{topic_in};
ghost use Rattle.usb_devicetext.specs.Sense.{answer_count};
ghost use Rattle.usb_devicetext.specs.PlaceFault.{FitsPlace, at_endpoint, device_in, has_interface, has_room, place_fault_place, place_fault_text, speed_text};

use crate::form::word_at;
use crate::sense::{answer_count, has_speed, moves_at};
use crate::topic::Topic;
use crate::word::Speed;
use std::fmt;
use usb_device::ScriptedDevice;
use usb_model::EpAddr;
use usb_scripttext::devices::takes_script;
use usb_scripttext::number::{address, decimal_u32, device, interface};

/// Why a line of a good form can't stand where it does.
#[derive(Clone, Copy, PartialEq, Eq, Debug)]
pub enum PlaceFault {
    /// A device isn't the next one, which has this number.
    Turn(usize),
    /// No line before has the device.
    NoDevice,
    /// The device has no such bulk or interrupt endpoint.
    NoEndpoint,
    /// The endpoint has a script.
    SecondScript,
    /// The endpoint has so many answers, and not the one that is meant, counted from 0.
    NoAnswer(usize),
    /// What answers wait for is neither at the default control endpoint, nor at a bulk or interrupt endpoint.
    NoOther,
    /// The endpoint has so many answers, which are too few.
    FewAnswers(usize),
    /// An endpoint of the device can't be one at this speed (USB 2.0, 5.7.3, 5.8.3).
    TooFast(Speed),
    /// The device has no such interface.
    NoInterface,
}

/// What a device of a speed has, in a sentence.
#[tactic(auto, unfolding(crate::specs::PlaceFault::speed_text))]
fn of_speed(speed: Speed) -> &'static str
    ensures { result.now ≡ speed_text speed }
{
    match speed {
        Speed::Low => "a low speed device has no bulk endpoint, and packets of at most 8 bytes",
        Speed::Full => "a full speed device has packets of at most 64 bytes",
        Speed::High => "a high speed device has no such endpoint",
    }
}

/// The fault, in a sentence.
impl fmt::Display for PlaceFault {
    ghost output = { λ x. Some (place_fault_text x) };

    fn fmt<W: fmt::Write>(&self, f: &mut fmt::Formatter<W>) -> fmt::Result {
        match self {
            PlaceFault::Turn(next) if *next < 4 => {
                write!(f, "the next device has the number {next}")
            }
            PlaceFault::Turn(_) => f.write_str("there are 4 devices already"),
            PlaceFault::NoDevice => f.write_str("no line before this one has the device"),
            PlaceFault::NoEndpoint => {
                f.write_str("the device has no bulk or interrupt endpoint of this address")
            }
            PlaceFault::SecondScript => f.write_str("the endpoint has a script already"),
            PlaceFault::NoAnswer(count) => write!(
                f,
                "answers are counted from 0, and the endpoint's number of them is {count}"
            ),
            PlaceFault::NoOther => f.write_str(
                "what an answer waits for is counted at 00, of control requests, and at the device's bulk and interrupt endpoints",
            ),
            PlaceFault::FewAnswers(count) => {
                write!(f, "the endpoint's number of answers is {count}")
            }
            PlaceFault::TooFast(speed) => f.write_str(of_speed(*speed)),
            PlaceFault::NoInterface => f.write_str("the device has no interface of this number"),
        }
    }
}

impl PlaceFault {
    /// The word that it is about, from 0 on.
    pub fn place(&self) -> usize
        ensures { result ≡ place_fault_place self.now }
    {
        match self {
            PlaceFault::Turn(_) | PlaceFault::NoDevice => 1,
            PlaceFault::NoEndpoint
            | PlaceFault::SecondScript
            | PlaceFault::TooFast(_)
            | PlaceFault::NoInterface => 2,
            PlaceFault::NoAnswer(_) | PlaceFault::FewAnswers(_) => 3,
            PlaceFault::NoOther => 4,
        }
    }

    /// Why a line of these words can't stand beside these devices; None where nothing is in its way.
    pub(crate) fn of(devices: &[ScriptedDevice], words: &[&str]) -> Option<PlaceFault>
        ensures { IfSome result (λ fault. FitsPlace fault devices.now (words_of words.now)) }
    {
        match Topic::read(word_at(words, 0))? {
            Topic::Device => turn(devices, words),
            topic => match no_device(devices, words) {
                Some(fault) => Some(fault),
                None => of_topic(devices, topic, words),
            },
        }
    }
}

/// Why it can't stand beside its device.
fn of_topic(devices: &[ScriptedDevice], topic: Topic, words: &[&str]) -> Option<PlaceFault>
    requires { topic_in (words_of words.now) ≡ Some topic }
    ensures { IfSome result (λ fault. FitsPlace fault devices.now (words_of words.now)) }
{
    match topic {
        Topic::Script => no_endpoint(devices, words).or(second_script(devices, words)),
        Topic::After => no_endpoint(devices, words)
            .or(no_answer(devices, words))
            .or(no_other(devices, words)),
        Topic::Leaves => no_endpoint(devices, words).or(few_answers(devices, words)),
        Topic::Speed => too_fast(devices, words),
        Topic::Driver => no_interface(devices, words),
        _ => None,
    }
}

/// The device of a line.
fn device_in<'a>(devices: &'a [ScriptedDevice], words: &[&str]) -> Option<&'a ScriptedDevice>
    ensures { option_copied result ≡ device_in devices.now (words_of words.now) }
{
    match device(word_at(words, 1)) {
        Ok(number) => devices.get(usize::from(number.number())),
        Err(_) => None,
    }
}

/// That a device isn't the next one.
fn turn(devices: &[ScriptedDevice], words: &[&str]) -> Option<PlaceFault>
    requires { topic_in (words_of words.now) ≡ Some topic.Device }
    ensures { IfSome result (λ fault. FitsPlace fault devices.now (words_of words.now)) }
{
    match device(word_at(words, 1)) {
        Ok(number) if usize::from(number.number()) != devices.len() => {
            Some(PlaceFault::Turn(devices.len()))
        }
        _ => None,
    }
}

/// That no line before has the device.
fn no_device(devices: &[ScriptedDevice], words: &[&str]) -> Option<PlaceFault>
    ensures { IfSome result (λ fault. FitsPlace fault devices.now (words_of words.now)) }
{
    match device(word_at(words, 1)) {
        Ok(number) if usize::from(number.number()) >= devices.len() => Some(PlaceFault::NoDevice),
        _ => None,
    }
}

/// That the device has no such endpoint.
fn no_endpoint(devices: &[ScriptedDevice], words: &[&str]) -> Option<PlaceFault>
    ensures { IfSome result (λ fault. FitsPlace fault devices.now (words_of words.now)) }
{
    match (device_in(devices, words), address(word_at(words, 2))) {
        (Some(device), Ok(ep)) if !takes_script(&device.config, ep) => Some(PlaceFault::NoEndpoint),
        _ => None,
    }
}

/// Whether an endpoint has no script yet.
fn has_room(device: &ScriptedDevice, ep: EpAddr) -> bool
    ensures { result ≡ has_room device.now ep }
{
    match device.scripts.as_slice().get(usize::from(ep.id())) {
        Some(script) => script.is_empty(),
        None => false,
    }
}

/// That the endpoint has a script.
fn second_script(devices: &[ScriptedDevice], words: &[&str]) -> Option<PlaceFault>
    requires { topic_in (words_of words.now) ≡ Some topic.Script }
    ensures { IfSome result (λ fault. FitsPlace fault devices.now (words_of words.now)) }
{
    match (device_in(devices, words), address(word_at(words, 2))) {
        (Some(device), Ok(ep)) if !has_room(device, ep) => Some(PlaceFault::SecondScript),
        _ => None,
    }
}

/// How many answers the endpoint of a line has.
fn count_in(devices: &[ScriptedDevice], words: &[&str]) -> Option<usize>
    ensures { IfSome result (λ count. at_endpoint answer_count devices.now (words_of words.now) 2 ≡ Some (Some count)) }
{
    match (device_in(devices, words), address(word_at(words, 2))) {
        (Some(device), Ok(ep)) => answer_count(device, ep),
        _ => None,
    }
}

/// That the endpoint hasn't the answer from which on it waits.
fn no_answer(devices: &[ScriptedDevice], words: &[&str]) -> Option<PlaceFault>
    requires { topic_in (words_of words.now) ≡ Some topic.After }
    ensures { IfSome result (λ fault. FitsPlace fault devices.now (words_of words.now)) }
{
    match (count_in(devices, words), decimal_u32(word_at(words, 3))) {
        (Some(count), Some(place)) if place as usize >= count => Some(PlaceFault::NoAnswer(count)),
        _ => None,
    }
}

/// That nothing moves at the other endpoint of a line that has one.
fn no_other(devices: &[ScriptedDevice], words: &[&str]) -> Option<PlaceFault>
    requires { topic_in (words_of words.now) ≡ Some topic.After }
    ensures { IfSome result (λ fault. FitsPlace fault devices.now (words_of words.now)) }
{
    if words.len() != 6 {
        return None;
    }
    match (device_in(devices, words), address(word_at(words, 4))) {
        (Some(device), Ok(ep)) if !moves_at(device, ep) => Some(PlaceFault::NoOther),
        _ => None,
    }
}

/// That the endpoint has fewer answers.
fn few_answers(devices: &[ScriptedDevice], words: &[&str]) -> Option<PlaceFault>
    requires { topic_in (words_of words.now) ≡ Some topic.Leaves }
    ensures { IfSome result (λ fault. FitsPlace fault devices.now (words_of words.now)) }
{
    match (count_in(devices, words), decimal_u32(word_at(words, 3))) {
        (Some(count), Some(answers)) if answers as usize > count => {
            Some(PlaceFault::FewAnswers(count))
        }
        _ => None,
    }
}

/// That an endpoint of the device can't be one at its speed.
fn too_fast(devices: &[ScriptedDevice], words: &[&str]) -> Option<PlaceFault>
    requires { topic_in (words_of words.now) ≡ Some topic.Speed }
    ensures { IfSome result (λ fault. FitsPlace fault devices.now (words_of words.now)) }
{
    match (device_in(devices, words), Speed::read(word_at(words, 2))) {
        (Some(device), Some(speed)) if !has_speed(device, speed) => Some(PlaceFault::TooFast(
            speed,
        )),
        _ => None,
    }
}

/// Whether a device has an interface of this number.
fn has_interface(device: &ScriptedDevice, number: u8) -> bool
    ensures { result ≡ has_interface device.now number }
{
    device.config.interfaces().contains(&number)
}

/// That the device has no such interface.
fn no_interface(devices: &[ScriptedDevice], words: &[&str]) -> Option<PlaceFault>
    requires { topic_in (words_of words.now) ≡ Some topic.Driver }
    ensures { IfSome result (λ fault. FitsPlace fault devices.now (words_of words.now)) }
{
    match (device_in(devices, words), interface(word_at(words, 2))) {
        (Some(device), Ok(number)) if !has_interface(device, number) => {
            Some(PlaceFault::NoInterface)
        }
        _ => None,
    }
}
