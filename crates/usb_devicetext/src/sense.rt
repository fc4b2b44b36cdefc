//! Whether what lines say can mean something: whether it applies to its device, as all lines together describe that, and whether
//! what may be said once is said once.

ghost use Rattle.std.specs.Prelude.{◌≡◌, []};
ghost use Rattle.usb_devicetext.specs.declared.line.DeskLine.TheVariants as DeskLine;
ghost use Rattle.std.specs.Option.{option_copied};
ghost use Rattle.std.specs.Prelude.{Some};
ghost use Rattle.usb_scripttext.specs.Results.{Becomes};
ghost use Rattle.usb_devicetext.specs.Sense.{answer_count, applies, applies_to, can_wait, has_answers, has_place, has_speed, is_said, is_same, is_within, moves_at, subject_of, with_saying, with_subject, with_text};

use crate::line::DeskLine;
use crate::statement::{Awaited, Departure, DeviceGate, Statement};
use crate::word::Speed;
use std::alloc::Global;
use std::marker::Model;
use usb_device::ScriptedDevice;
use usb_model::{DeviceNo, EpAddr, Kind};
use usb_scripttext::devices::takes_script;
use usb_scripttext::words::says_nothing;
use usb_scripttext::{LineFault, Problem};

/// What may be said once of a device.
#[derive(Clone, Copy, PartialEq, Eq, Debug)]
pub enum Subject {
    /// Its numbers.
    Ids,
    /// Its class.
    Class,
    /// Its device descriptor.
    Descriptor,
    /// Its string of this index.
    Text(u8),
    /// Its speed.
    Speed,
    /// When it is pulled out.
    Leaves,
}

/// That this is said of a device.
#[derive(Clone, Copy)]
pub struct Saying {
    /// Of which.
    pub dev: DeviceNo,
    /// What.
    pub subject: Subject,
}

impl Subject {
    /// What a line says that may be said once; None where it may be said again.
    pub(crate) fn of(what: &Statement) -> Option<Subject>
        ensures { result ≡ subject_of what.now }
    {
        match what {
            Statement::Ids(_) => Some(Subject::Ids),
            Statement::Class(_) => Some(Subject::Class),
            Statement::Descriptor(_) => Some(Subject::Descriptor),
            Statement::Text(text) => Some(Subject::Text(text.index)),
            Statement::Speed(_) => Some(Subject::Speed),
            Statement::Leaves(_) => Some(Subject::Leaves),
            Statement::Control(_)
            | Statement::After(_)
            | Statement::Hidden
            | Statement::Anew
            | Statement::Lasts
            | Statement::Driver(_) => None,
        }
    }

    /// Whether it is the same.
    pub(crate) fn is_same(self, other: Subject) -> bool
        ensures { result ≡ is_same self other }
    {
        match (self, other) {
            (Subject::Ids, Subject::Ids) => true,
            (Subject::Class, Subject::Class) => true,
            (Subject::Descriptor, Subject::Descriptor) => true,
            (Subject::Text(one), Subject::Text(other)) => one == other,
            (Subject::Speed, Subject::Speed) => true,
            (Subject::Leaves, Subject::Leaves) => true,
            _ => false,
        }
    }
}

/// What lines said that may be said once.
#[derive(Drop)]
pub(crate) struct Sayings {
    said: Vec<Saying>,
}

impl Model for Sayings {
    ghost use Rattle.std.specs.Prelude.{List};
    ghost use Rattle.usb_devicetext.specs.declared.sense.Saying.{Saying};

    ghost Value = { List Saying };

    ghost view = { λ s. s.said.items };
}

impl Sayings {
    /// Nothing is said yet.
    pub(crate) fn new(alloc: Global) -> Sayings
        ensures { result ≡ [] }
    {
        Sayings {
            said: Vec::new(alloc),
        }
    }

    /// Reads a line of a text of these devices. An empty one and a comment say nothing.
    pub(crate) fn read(
        &mut self,
        alloc: Global,
        devices: &[ScriptedDevice],
        text: &[u8],
    ) -> Result<(), LineFault>
        ensures { Becomes result (with_text devices.now self.old text.now) self.old self.new }
    {
        if says_nothing(text) {
            return Ok(());
        }
        self.take(devices, DeskLine::from_text(alloc, text)?)
    }

    /// Adds what a line says, where it can mean something.
    fn take(&mut self, devices: &[ScriptedDevice], line: DeskLine) -> Result<(), LineFault>
        ensures { Becomes result (with_saying devices.now self.old line) self.old self.new }
    {
        match line {
            DeskLine::Device { .. } | DeskLine::Script(_) => Ok(()),
            DeskLine::Says { dev, what } => self.say(devices, dev, &what),
        }
    }

    /// Adds what a line says of a device, where it can mean something.
    fn say(
        &mut self,
        devices: &[ScriptedDevice],
        dev: DeviceNo,
        what: &Statement,
    ) -> Result<(), LineFault>
        ensures { Becomes result (with_saying devices.now self.old (DeskLine.Says dev what.now)) self.old self.new }
    {
        if !applies_to(devices.get(usize::from(dev.number())), what) {
            return Err(LineFault::Bad(Problem::FirstWord));
        }
        match Subject::of(what) {
            Some(subject) => self.add(dev, subject),
            None => Ok(()),
        }
    }

    /// Adds what may be said once, where it isn't said yet.
    fn add(&mut self, dev: DeviceNo, subject: Subject) -> Result<(), LineFault>
        ensures { Becomes result (with_subject self.old dev (Some subject)) self.old self.new }
    {
        if self.has(dev, subject) {
            return Err(LineFault::Bad(Problem::FirstWord));
        }
        self.said.push(Saying { dev, subject })?;
        Ok(())
    }

    /// Whether it is said.
    fn has(&self, dev: DeviceNo, subject: Subject) -> bool
        ensures { result ≡ is_said self.now dev subject }
    {
        self.said
            .iter()
            .any(|said| said.dev == dev && said.subject.is_same(subject))
    }
}

/// How many answers a bulk or interrupt endpoint has; None where there is no such endpoint.
pub(crate) fn answer_count(device: &ScriptedDevice, ep: EpAddr) -> Option<usize>
    ensures { result ≡ answer_count device.now ep }
{
    if !takes_script(&device.config, ep) {
        return None;
    }
    match device.scripts.as_slice().get(usize::from(ep.id())) {
        Some(script) => Some(script.len()),
        None => None,
    }
}

/// Whether the endpoint has the answer from which on it waits.
pub(crate) fn has_place(device: &ScriptedDevice, gate: &DeviceGate) -> bool
    ensures { result ≡ has_place device.now gate.now }
{
    match answer_count(device, gate.ep) {
        Some(count) => (gate.place as usize) < count,
        None => false,
    }
}

/// Whether something moves there: at the default control endpoint, or at a bulk or interrupt endpoint.
pub(crate) fn moves_at(device: &ScriptedDevice, ep: EpAddr) -> bool
    ensures { result ≡ moves_at device.now ep }
{
    ep.address() == 0 || takes_script(&device.config, ep)
}

/// Whether answers can wait for this: for what moves somewhere, or for any requests.
pub(crate) fn can_wait(device: &ScriptedDevice, gate: &DeviceGate) -> bool
    ensures { result ≡ can_wait device.now gate.now }
{
    match gate.awaited {
        Awaited::At(other) => moves_at(device, other),
        Awaited::Requests(_) => true,
    }
}

/// Whether the endpoint has as many answers.
pub(crate) fn has_answers(device: &ScriptedDevice, departure: &Departure) -> bool
    ensures { result ≡ has_answers device.now departure.now }
{
    match answer_count(device, departure.ep) {
        Some(count) => departure.answers as usize <= count,
        None => false,
    }
}

/// Whether an endpoint of this kind may have packets of this size at this speed (USB 2.0, 5.7.3, 5.8.3).
fn is_within(speed: Speed, kind: Kind, size: u16) -> bool
    ensures { result ≡ is_within speed kind size }
{
    match (speed, kind) {
        (Speed::Full, Kind::Bulk | Kind::Interrupt) => size <= 64,
        (Speed::Low, Kind::Bulk) => false,
        (Speed::Low, Kind::Interrupt) => size <= 8,
        _ => true,
    }
}

/// Whether each endpoint of a device may be one at this speed.
pub(crate) fn has_speed(device: &ScriptedDevice, speed: Speed) -> bool
    ensures { result ≡ has_speed device.now speed }
{
    device
        .config
        .endpoints()
        .iter()
        .all(|info| is_within(speed, info.kind, info.packet_size))
}

/// Whether what a line says applies to its device.
fn applies(device: &ScriptedDevice, what: &Statement) -> bool
    ensures { result ≡ applies device.now what.now }
{
    match what {
        Statement::After(gate) => has_place(device, gate) && can_wait(device, gate),
        Statement::Leaves(departure) => has_answers(device, departure),
        Statement::Speed(speed) => has_speed(device, *speed),
        Statement::Driver(interface) => device.config.interfaces().contains(interface),
        _ => true,
    }
}

/// Whether there is the device, and what a line says applies to it.
fn applies_to(device: Option<&ScriptedDevice>, what: &Statement) -> bool
    ensures { result ≡ applies_to (option_copied device.entry) what.now }
{
    match device {
        Some(device) => applies(device, what),
        None => false,
    }
}
