//! A device as the lines of a text describe it.

ghost use Rattle.std.specs.Prelude.{◌≡◌, ◌+◌, ◌<◌, IfOk};
ghost use Rattle.usb_devicetext.specs.Device.{new_device, with_class, with_ids, with_text, said, set_word};

use crate::statement::{Class, Control, Departure, DeviceGate, Ids, Statement, Text};
use crate::word::Speed;
use std::alloc::{AllocError, Global};
use usb_model::{Bytes, Sequence};

/// A device descriptor without classes, numbers and strings (USB 2.0, 9.6.1): USB 2.0, packets of 64 bytes on the default
/// control endpoint, vendor 1209 and product 0001, release 1.00, one configuration.
const PLAIN: [u8; 18] = [18, 1, 0, 2, 0, 0, 0, 64, 0x09, 0x12, 1, 0, 0, 1, 0, 0, 0, 1];

/// A device as the lines of a text describe it, beside what it answers to transfers.
#[derive(Drop)]
pub struct DeskDevice {
    /// Its configuration descriptor, whole.
    pub configuration: Bytes,
    /// The numbers of its interfaces.
    pub interfaces: Bytes,
    /// Its device descriptor.
    pub descriptor: [u8; 18],
    /// Its string descriptors; of two with one index the first counts.
    pub strings: Sequence<Text>,
    /// Its speed.
    pub speed: Speed,
    /// Whether it isn't there yet.
    pub hidden: bool,
    /// Whether it begins anew each time that one of its interfaces is claimed.
    pub anew: bool,
    /// Whether it goes on where it stands when it is reset.
    pub lasts: bool,
    /// The interfaces for which the system has a driver.
    pub drivers: Bytes,
    /// Its answers to requests; the first that a request fits answers it.
    pub controls: Sequence<Control>,
    /// Its answers that wait.
    pub gates: Sequence<DeviceGate>,
    /// When it is pulled out.
    pub departures: Sequence<Departure>,
}

/// Puts a number of 16 bits into a device descriptor, its lower byte first.
fn set_word(descriptor: &mut [u8; 18], at: usize, value: u16)
    requires { at + 1 < 18 }
    ensures { descriptor.new ≡ set_word at value descriptor.old }
{
    descriptor[at] = (value % 256) as u8;
    descriptor[at + 1] = (value / 256) as u8;
}

impl DeskDevice {
    /// A device with this configuration, of which no other line speaks: of high speed, and there.
    pub(crate) fn new(alloc: Global, configuration: Bytes, interfaces: Bytes) -> DeskDevice
        ensures { result ≡ new_device configuration interfaces }
    {
        DeskDevice {
            configuration,
            interfaces,
            descriptor: PLAIN,
            strings: Sequence::new(alloc),
            speed: Speed::High,
            hidden: false,
            anew: false,
            lasts: false,
            drivers: Bytes::new(alloc),
            controls: Sequence::new(alloc),
            gates: Sequence::new(alloc),
            departures: Sequence::new(alloc),
        }
    }

    /// The device has these numbers.
    fn set_ids(&mut self, ids: Ids)
        ensures { self.new ≡ with_ids ids self.old }
    {
        set_word(&mut self.descriptor, 8, ids.vendor);
        set_word(&mut self.descriptor, 10, ids.product);
        set_word(&mut self.descriptor, 12, ids.release);
    }

    /// The device has this class.
    fn set_class(&mut self, class: Class)
        ensures { self.new ≡ with_class class self.old }
    {
        self.descriptor[4] = class.class;
        self.descriptor[5] = class.subclass;
        self.descriptor[6] = class.protocol;
    }

    /// The device has this string; 1 to 3 are its manufacturer, its product and its serial number.
    fn add_text(&mut self, text: Text) -> Result<(), AllocError>
        ensures { IfOk result (λ _. self.new ≡ with_text text self.old) }
    {
        let index = text.index;
        self.strings.push(text)?;
        if index < 4 {
            self.descriptor[13 + usize::from(index)] = index;
        }
        Ok(())
    }

    /// The device is as one more line says. An error where memory is refused.
    pub(crate) fn say(&mut self, what: Statement) -> Result<(), AllocError>
        ensures { IfOk result (λ _. self.new ≡ said what self.old) }
    {
        match what {
            Statement::Ids(ids) => self.set_ids(ids),
            Statement::Class(class) => self.set_class(class),
            Statement::Descriptor(descriptor) => self.descriptor = descriptor,
            Statement::Text(text) => self.add_text(text)?,
            Statement::Speed(speed) => self.speed = speed,
            Statement::Control(control) => self.controls.push(control)?,
            Statement::After(gate) => self.gates.push(gate)?,
            Statement::Leaves(departure) => self.departures.push(departure)?,
            Statement::Hidden => self.hidden = true,
            Statement::Anew => self.anew = true,
            Statement::Lasts => self.lasts = true,
            Statement::Driver(interface) => self.drivers.push(interface)?,
        }
        Ok(())
    }
}
