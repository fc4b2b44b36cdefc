//! A text that is written piece by piece.

ghost use Rattle.std.specs.Prelude.{◌≡◌, ◌++◌, [], IfOk, Some};
ghost use Rattle.std.specs.List.{flat_map};
ghost use Rattle.hex.specs.Hex.{encode_lower};
ghost use Rattle.trace_descriptor.specs.Lines.{comments, configuration_comment, configurations_text, counted, device_comment, device_comments, device_line, direction_name, endpoint_comment, endpoint_comments, ids_text, interface_comment, interface_comments, kind_name, others_comment, others_comments, plural_end, setting_comment, setting_comments, version_text};

use crate::class::class_name;
use crate::file::DescriptorFile;
use crate::interface::{InterfaceSetting, class_of, settings_of};
use crate::piece::byte_at;
use std::alloc::{AllocError, Global};
use std::fmt;
use std::marker::Model;
use usb_descriptors::Config;
use usb_model::{EndpointInfo, EpAddr, Kind};

/// A text that is written piece by piece; contracts see its bytes.
#[derive(Drop)]
pub(crate) struct DescriptorText {
    bytes: Vec<u8>,
    alloc: Global,
}

impl Model for DescriptorText {
    ghost use Rattle.std.specs.Prelude.{ℕ, List};

    ghost Value = { List ℕ };

    ghost view = { λ t. t.bytes.items };
}

/// What makes a noun stand for so many.
fn plural_end(count: u64) -> &'static str
    ensures { result.now ≡ plural_end count }
{
    if count == 1 { "" } else { "s" }
}

/// So many of something.
#[derive(Clone, Copy)]
struct Counted(u64, &'static str);

impl fmt::Display for Counted {
    ghost output = { λ x. Some (counted x.0 x.1.now) };

    fn fmt<W: fmt::Write>(&self, f: &mut fmt::Formatter<W>) -> fmt::Result {
        let (count, noun) = (self.0, self.1);
        let end = plural_end(count);
        write!(f, "{count} {noun}{end}")
    }
}

/// The name of a kind of endpoints, behind a space.
#[tactic(auto, unfolding(crate::specs::Lines::kind_name))]
fn kind_name(kind: Kind) -> &'static str
    ensures { result.now ≡ kind_name kind }
{
    match kind {
        Kind::Control => " control",
        Kind::Isochronous => " isochronous",
        Kind::Bulk => " bulk",
        Kind::Interrupt => " interrupt",
    }
}

/// That of the direction of one, behind a space.
#[tactic(auto, unfolding(crate::specs::Lines::direction_name))]
fn direction_name(address: EpAddr) -> &'static str
    ensures { result.now ≡ direction_name address }
{
    if address.is_in() { " IN" } else { " OUT" }
}

impl DescriptorText {
    /// An empty text. Takes no memory.
    pub(crate) fn new(alloc: Global) -> DescriptorText
        ensures { result ≡ [] }
    {
        DescriptorText {
            bytes: Vec::new(alloc),
            alloc,
        }
    }

    /// Its bytes.
    pub(crate) fn into_bytes(self) -> Vec<u8>
        ensures { result.items ≡ self }
    {
        let DescriptorText { bytes, alloc: _ } = self;
        bytes
    }

    /// Puts some more behind it.
    pub(crate) fn put(&mut self, more: &str) -> Result<(), AllocError>
        ensures { IfOk result (λ _. self.new ≡ self.old ++ more.now) }
    {
        self.bytes.extend_from_slice(more.as_bytes())
    }

    /// Puts bytes behind it, as two hexadecimal digits each.
    pub(crate) fn put_hex(&mut self, bytes: &[u8]) -> Result<(), AllocError>
        ensures { IfOk result (λ _. self.new ≡ self.old ++ encode_lower bytes.now) }
    {
        let digits = hex::encode(self.alloc, bytes)?;
        self.put(digits.as_str())
    }

    /// Puts idVendor and idProduct of a device behind it.
    #[tactic(auto, unfolding(crate::specs::Lines::ids_text))]
    fn put_ids(&mut self, device: &[u8]) -> Result<(), AllocError>
        ensures { IfOk result (λ _. self.new ≡ self.old ++ ids_text device.now) }
    {
        self.put_hex(&[byte_at(device, 9), byte_at(device, 8)])?;
        self.put(":")?;
        self.put_hex(&[byte_at(device, 11), byte_at(device, 10)])
    }

    /// Puts its bcdUSB behind it.
    #[tactic(auto, unfolding(crate::specs::Lines::version_text))]
    fn put_version(&mut self, device: &[u8]) -> Result<(), AllocError>
        ensures { IfOk result (λ _. self.new ≡ self.old ++ version_text device.now) }
    {
        let major = byte_at(device, 3);
        let minor = hex::encode(self.alloc, &[byte_at(device, 2)])?;
        let version = format!(in self.alloc; ", USB {major}.{minor}")?;
        self.put(version.as_str())
    }

    /// Puts how many configurations it has behind it.
    #[tactic(auto, unfolding(crate::specs::Lines::configurations_text))]
    fn put_configurations(&mut self, configurations: u8) -> Result<(), AllocError>
        ensures { IfOk result (λ _. self.new ≡ self.old ++ configurations_text configurations) }
    {
        let count = Counted(configurations as u64, "configuration");
        let text = format!(in self.alloc; ", {count}\n")?;
        self.put(text.as_str())
    }

    /// Puts the comment on a device behind it.
    #[tactic(auto, unfolding(crate::specs::Lines::device_comment))]
    fn put_device(&mut self, device: &[u8]) -> Result<(), AllocError>
        ensures { IfOk result (λ _. self.new ≡ self.old ++ device_comment device.now) }
    {
        self.put("# ")?;
        self.put_ids(device)?;
        self.put_version(device)?;
        self.put_configurations(byte_at(device, 17))
    }

    /// The same, where there is a device descriptor.
    fn put_devices(&mut self, device: &[u8]) -> Result<(), AllocError>
        ensures { IfOk result (λ _. self.new ≡ self.old ++ device_comments device.now) }
    {
        if device.is_empty() {
            return Ok(());
        }
        self.put_device(device)
    }

    /// Puts the comment on a configuration behind it.
    #[tactic(auto, unfolding(crate::specs::Lines::configuration_comment))]
    fn put_configuration(&mut self, value: u8, interfaces: u64) -> Result<(), AllocError>
        ensures { IfOk result (λ _. self.new ≡ self.old ++ configuration_comment value interfaces) }
    {
        let count = Counted(interfaces, "interface");
        let line = format!(in self.alloc; "# configuration {value}: {count}\n")?;
        self.put(line.as_str())
    }

    /// Puts that on an interface behind it.
    #[tactic(auto, unfolding(crate::specs::Lines::interface_comment))]
    fn put_interface(&mut self, number: u8, class: u8) -> Result<(), AllocError>
        ensures { IfOk result (λ _. self.new ≡ self.old ++ interface_comment number class) }
    {
        let name = class_name(class);
        let class = hex::encode(self.alloc, &[class])?;
        let line = format!(in self.alloc; "# interface {number}: class {class}{name}\n")?;
        self.put(line.as_str())
    }

    /// Puts that on an endpoint behind it.
    #[tactic(auto, unfolding(crate::specs::Lines::endpoint_comment))]
    fn put_endpoint(&mut self, info: &EndpointInfo) -> Result<(), AllocError>
        ensures { IfOk result (λ _. self.new ≡ self.old ++ endpoint_comment info.now) }
    {
        let address = info.address;
        let (kind, direction) = (kind_name(info.kind), direction_name(address));
        let size = Counted(info.packet_size as u64, "byte");
        let line = format!(in self.alloc; "#   {address}{kind}{direction}, packets of {size}\n")?;
        self.put(line.as_str())
    }

    /// The same, where it belongs to this interface.
    fn put_endpoint_of(&mut self, number: u8, info: &EndpointInfo) -> Result<(), AllocError>
        ensures { IfOk result (λ _. self.new ≡ self.old ++ endpoint_comments number info.now) }
    {
        if info.interface != number {
            return Ok(());
        }
        self.put_endpoint(info)
    }

    /// Puts the comments on the endpoints of an interface behind it.
    fn put_endpoints(&mut self, number: u8, endpoints: &[EndpointInfo]) -> Result<(), AllocError>
        ensures { IfOk result (λ _. self.new ≡ self.old ++ flat_map (endpoint_comments number) endpoints.now) }
    {
        for info in endpoints {
            self.put_endpoint_of(number, info)?;
        }
        Ok(())
    }

    /// Puts the comment on a setting that isn't used behind it.
    #[tactic(auto, unfolding(crate::specs::Lines::setting_comment))]
    fn put_setting(&mut self, setting: InterfaceSetting) -> Result<(), AllocError>
        ensures { IfOk result (λ _. self.new ≡ self.old ++ setting_comment setting) }
    {
        let InterfaceSetting {
            number,
            setting,
            ..
        } = setting;
        let line = format!(in self.alloc;
            "# interface {number}, setting {setting}: not used here\n"
        )?;
        self.put(line.as_str())
    }

    /// The same, where it is one of this interface.
    fn put_setting_of(&mut self, number: u8, setting: &InterfaceSetting) -> Result<(), AllocError>
        ensures { IfOk result (λ _. self.new ≡ self.old ++ setting_comments number setting.now) }
    {
        if setting.number == number && setting.setting != 0 {
            self.put_setting(*setting)
        } else {
            Ok(())
        }
    }

    /// Puts the comments on the settings of an interface that aren't used behind it.
    fn put_settings(&mut self, number: u8, settings: &[InterfaceSetting]) -> Result<(), AllocError>
        ensures { IfOk result (λ _. self.new ≡ self.old ++ flat_map (setting_comments number) settings.now) }
    {
        for setting in settings {
            self.put_setting_of(number, setting)?;
        }
        Ok(())
    }

    /// Puts the comments on an interface behind it.
    #[tactic(auto, unfolding(crate::specs::Lines::interface_comments))]
    fn put_whole_interface(
        &mut self,
        endpoints: &[EndpointInfo],
        settings: &[InterfaceSetting],
        number: u8,
    ) -> Result<(), AllocError>
        ensures { IfOk result (λ _. self.new ≡ self.old ++ interface_comments endpoints.now settings.now number) }
    {
        self.put_interface(number, class_of(settings, number))?;
        self.put_endpoints(number, endpoints)?;
        self.put_settings(number, settings)
    }

    /// Puts those on all interfaces behind it.
    fn put_interfaces(
        &mut self,
        endpoints: &[EndpointInfo],
        settings: &[InterfaceSetting],
        numbers: &[u8],
    ) -> Result<(), AllocError>
        ensures { IfOk result (λ _. self.new ≡ self.old ++ flat_map (interface_comments endpoints.now settings.now) numbers.now) }
    {
        for number in numbers {
            self.put_whole_interface(endpoints, settings, *number)?;
        }
        Ok(())
    }

    /// Puts the comment on so many bytes that are left out behind it.
    #[tactic(auto, unfolding(crate::specs::Lines::others_comment))]
    fn put_count(&mut self, count: u64) -> Result<(), AllocError>
        ensures { IfOk result (λ _. self.new ≡ self.old ++ others_comment count) }
    {
        let count = Counted(count, "more byte");
        let line = format!(in self.alloc;
            "# left out: {count}, which `usbtrace describe` prints\n"
        )?;
        self.put(line.as_str())
    }

    /// The same, where there are some.
    fn put_others(&mut self, others: &[u8]) -> Result<(), AllocError>
        ensures { IfOk result (λ _. self.new ≡ self.old ++ others_comments others.now) }
    {
        if others.is_empty() {
            return Ok(());
        }
        self.put_count(others.len() as u64)
    }

    /// Puts the line of a device behind it.
    #[tactic(auto, unfolding(crate::specs::Lines::device_line))]
    pub(crate) fn put_line(&mut self, configuration: &[u8]) -> Result<(), AllocError>
        ensures { IfOk result (λ _. self.new ≡ self.old ++ device_line configuration.now) }
    {
        self.put("device 0 ")?;
        self.put_hex(configuration)?;
        self.put("\n")
    }

    /// Puts the comments on a file behind it.
    #[tactic(auto, unfolding(crate::specs::Lines::comments))]
    pub(crate) fn put_comments(
        &mut self,
        file: &DescriptorFile<'_>,
        config: &Config,
    ) -> Result<(), AllocError>
        ensures { IfOk result (λ _. self.new ≡ self.old ++ comments file.now config.now) }
    {
        let settings = settings_of(self.alloc, file.configuration)?;
        self.put_devices(file.device)?;
        self.put_configuration(
            byte_at(file.configuration, 5),
            config.interfaces().len() as u64,
        )?;
        self.put_interfaces(config.endpoints(), settings.as_slice(), config.interfaces())?;
        self.put_others(file.others)
    }
}
