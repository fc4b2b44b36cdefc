//! The devices that the lines so far describe.

ghost use Rattle.std.specs.Prelude.{◌≡◌};
ghost use Rattle.usb_devicetext.specs.declared.line.DeskLine.TheVariants as DeskLine;
ghost use Rattle.usb_scripttext.specs.Results.{Becomes};
ghost use Rattle.usb_devicetext.specs.DeviceText.{nothing_said, with_line, with_text};

use crate::desk::DeviceText;
use crate::device::DeskDevice;
use crate::line::DeskLine;
use crate::statement::Statement;
use std::alloc::Global;
use std::marker::Model;
use usb_descriptors::Config;
use usb_device::ScriptedDevice;
use usb_model::{Bytes, DeviceNo, Sequence};
use usb_scripttext::devices::{add_script, new_device};
use usb_scripttext::words::says_nothing;
use usb_scripttext::{EndpointAnswers, LineFault, Misplaced, Problem};

/// The devices that the lines so far describe.
#[derive(Drop)]
pub(crate) struct Draft {
    scripted: Vec<ScriptedDevice>,
    devices: Vec<DeskDevice>,
}

impl Model for Draft {
    ghost use Rattle.usb_devicetext.specs.declared.desk.DeviceText.{DeviceText};

    ghost Value = { DeviceText };

    ghost view = { λ d. record { scripted = d.scripted.items; devices = d.devices.items } };
}

impl Draft {
    /// No device is described yet.
    pub(crate) fn new(alloc: Global) -> Draft
        ensures { result ≡ nothing_said }
    {
        Draft {
            scripted: Vec::new(alloc),
            devices: Vec::new(alloc),
        }
    }

    /// The devices that were described.
    pub(crate) fn into_desk(self) -> DeviceText
        ensures { result ≡ self }
    {
        let Draft { scripted, devices } = self;
        DeviceText {
            scripted: Sequence::from_vec(scripted),
            devices: Sequence::from_vec(devices),
        }
    }

    /// Reads a line. An empty one and a comment say nothing.
    pub(crate) fn read(&mut self, alloc: Global, text: &[u8]) -> Result<(), LineFault>
        ensures { Becomes result (with_text self.old text.now) self.old self.new }
    {
        if says_nothing(text) {
            return Ok(());
        }
        self.take(alloc, DeskLine::from_text(alloc, text)?)
    }

    /// Adds what a line says, where it may stand here.
    fn take(&mut self, alloc: Global, line: DeskLine) -> Result<(), LineFault>
        ensures { Becomes result (with_line self.old line) self.old self.new }
    {
        match line {
            DeskLine::Device {
                number,
                descriptor,
                config,
            } => self.add(alloc, number, descriptor, config),
            DeskLine::Script(script) => self.add_script(alloc, script),
            DeskLine::Says { dev, what } => self.say(dev, what),
        }
    }

    /// Adds the device of the next number.
    fn add(
        &mut self,
        alloc: Global,
        number: DeviceNo,
        descriptor: Bytes,
        config: Config,
    ) -> Result<(), LineFault>
        ensures { Becomes result (with_line self.old (DeskLine.Device number descriptor config)) self.old self.new }
    {
        if usize::from(number.number()) != self.scripted.len() {
            let turn = Misplaced::Turn(self.scripted.len());
            return Err(LineFault::Bad(Problem::Place(turn)));
        }
        let interfaces = Bytes::from_vec(Vec::from_slice(alloc, config.interfaces())?);
        self.devices
            .push(DeskDevice::new(alloc, descriptor, interfaces))?;
        self.scripted.push(new_device(alloc, config)?)?;
        Ok(())
    }

    /// A device that stands before has the script of one endpoint more.
    fn add_script(&mut self, alloc: Global, script: EndpointAnswers) -> Result<(), LineFault>
        ensures { Becomes result (with_line self.old (DeskLine.Script script)) self.old self.new }
    {
        let EndpointAnswers { dev, ep, answers } = script;
        let place = usize::from(dev.number());
        if place >= self.scripted.len() {
            return Err(LineFault::Bad(Problem::Place(Misplaced::NoDevice)));
        }
        add_script(alloc, &mut self.scripted[place], ep, answers)?;
        Ok(())
    }

    /// A device that stands before is as one more line says.
    fn say(&mut self, dev: DeviceNo, what: Statement) -> Result<(), LineFault>
        ensures { Becomes result (with_line self.old (DeskLine.Says dev what)) self.old self.new }
    {
        let place = usize::from(dev.number());
        if place >= self.devices.len() {
            return Err(LineFault::Bad(Problem::Place(Misplaced::NoDevice)));
        }
        self.devices[place].say(what)?;
        Ok(())
    }
}
