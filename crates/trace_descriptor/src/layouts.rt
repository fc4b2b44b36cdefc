//! The tables of all descriptors that are known: which fields each has, and where (USB 2.0, 9.6; USB 3.2, 9.6; HID 1.11, 6.2.1;
//! CDC 1.2, 5.2.3; CCID 1.1, 5.1; DFU 1.1, 4.1.3). The names and the blanks are those of `lsusb -v`.

use crate::field::DescriptorField as Field;
use crate::field::Form::{
    Bits, Decimal, Echo, Mask, Mult, Power, Screen, ShortVersion, Streams, Version,
};
use crate::field::Note::{
    Class, Country, EndpointAddress, EndpointAttributes, HidType, Lines, Nothing, OnlyFirst,
    PacketSize, Protocol, Subclass, Text, Words,
};
use crate::flags::FlagSet;

/// What stands behind the fields of a descriptor.
#[derive(Clone, Copy, PartialEq, Eq)]
pub(crate) enum Rest {
    /// Nothing that is printed.
    Unprinted,
    /// Bytes that no table has.
    Junk,
    /// A number and a length for each descriptor that a HID descriptor counts, and then such bytes.
    Counted,
    /// The numbers of interfaces, a byte each.
    Interfaces,
}

/// The table of a descriptor: the line above it, the blanks in front of its fields, these, and what stands behind them.
#[derive(Clone, Copy)]
pub(crate) struct Layout {
    pub(crate) title: &'static str,
    pub(crate) margin: &'static str,
    pub(crate) fields: &'static [Field],
    pub(crate) rest: Rest,
}

static DEVICE: [Field; 14] = [
    Field("bLength             ", 0, Decimal(1, 5), Nothing),
    Field("bDescriptorType     ", 1, Decimal(1, 5), Nothing),
    Field("bcdUSB              ", 2, Version, Nothing),
    Field("bDeviceClass        ", 4, Decimal(1, 5), Class),
    Field("bDeviceSubClass     ", 5, Decimal(1, 5), Subclass),
    Field("bDeviceProtocol     ", 6, Decimal(1, 5), Protocol),
    Field("bMaxPacketSize0     ", 7, Decimal(1, 5), Nothing),
    Field("idVendor           ", 8, Bits(2), Nothing),
    Field("idProduct          ", 10, Bits(2), Nothing),
    Field("bcdDevice           ", 12, Version, Nothing),
    Field("iManufacturer       ", 14, Decimal(1, 5), Nothing),
    Field("iProduct            ", 15, Decimal(1, 5), Nothing),
    Field("iSerial             ", 16, Decimal(1, 5), Nothing),
    Field("bNumConfigurations  ", 17, Decimal(1, 5), Nothing),
];

static CONFIGURATION: [Field; 8] = [
    Field("bLength             ", 0, Decimal(1, 5), Nothing),
    Field("bDescriptorType     ", 1, Decimal(1, 5), Nothing),
    Field("wTotalLength       ", 2, Bits(2), Nothing),
    Field("bNumInterfaces      ", 4, Decimal(1, 5), Nothing),
    Field("bConfigurationValue ", 5, Decimal(1, 5), Nothing),
    Field("iConfiguration      ", 6, Decimal(1, 5), Nothing),
    Field("bmAttributes         ", 7, Bits(1), Lines(FlagSet::Power)),
    Field("MaxPower            ", 8, Power, Text("mA")),
];

static ASSOCIATION: [Field; 8] = [
    Field("bLength             ", 0, Decimal(1, 5), Nothing),
    Field("bDescriptorType     ", 1, Decimal(1, 5), Nothing),
    Field("bFirstInterface     ", 2, Decimal(1, 5), Nothing),
    Field("bInterfaceCount     ", 3, Decimal(1, 5), Nothing),
    Field("bFunctionClass      ", 4, Decimal(1, 5), Class),
    Field("bFunctionSubClass   ", 5, Decimal(1, 5), Subclass),
    Field("bFunctionProtocol   ", 6, Decimal(1, 5), Protocol),
    Field("iFunction           ", 7, Decimal(1, 5), Nothing),
];

static INTERFACE: [Field; 9] = [
    Field("bLength             ", 0, Decimal(1, 5), Nothing),
    Field("bDescriptorType     ", 1, Decimal(1, 5), Nothing),
    Field("bInterfaceNumber    ", 2, Decimal(1, 5), Nothing),
    Field("bAlternateSetting   ", 3, Decimal(1, 5), Nothing),
    Field("bNumEndpoints       ", 4, Decimal(1, 5), Nothing),
    Field("bInterfaceClass     ", 5, Decimal(1, 5), Class),
    Field("bInterfaceSubClass  ", 6, Decimal(1, 5), Subclass),
    Field("bInterfaceProtocol  ", 7, Decimal(1, 5), Protocol),
    Field("iInterface          ", 8, Decimal(1, 5), Nothing),
];

static ENDPOINT: [Field; 6] = [
    Field("bLength             ", 0, Decimal(1, 5), Nothing),
    Field("bDescriptorType     ", 1, Decimal(1, 5), Nothing),
    Field("bEndpointAddress     ", 2, Bits(1), EndpointAddress),
    Field("bmAttributes        ", 3, Decimal(1, 5), EndpointAttributes),
    Field("wMaxPacketSize     ", 4, Bits(2), PacketSize),
    Field("bInterval           ", 6, Decimal(1, 5), Nothing),
];

/// An endpoint of an audio device has two fields more.
static AUDIO_ENDPOINT: [Field; 8] = [
    Field("bLength             ", 0, Decimal(1, 5), Nothing),
    Field("bDescriptorType     ", 1, Decimal(1, 5), Nothing),
    Field("bEndpointAddress     ", 2, Bits(1), EndpointAddress),
    Field("bmAttributes        ", 3, Decimal(1, 5), EndpointAttributes),
    Field("wMaxPacketSize     ", 4, Bits(2), PacketSize),
    Field("bInterval           ", 6, Decimal(1, 5), Nothing),
    Field("bRefresh            ", 7, Decimal(1, 5), Nothing),
    Field("bSynchAddress       ", 8, Decimal(1, 5), Nothing),
];

/// The companion of a SuperSpeed endpoint that has neither streams nor bursts in an interval.
static COMPANION: [Field; 1] = [Field("bMaxBurst           ", 2, Decimal(1, 5), Nothing)];

static BULK_COMPANION: [Field; 2] = [
    Field("bMaxBurst           ", 2, Decimal(1, 5), Nothing),
    Field("MaxStreams          ", 3, Streams, Nothing),
];

static ISOCHRONOUS_COMPANION: [Field; 2] = [
    Field("bMaxBurst           ", 2, Decimal(1, 5), Nothing),
    Field("Mult                ", 3, Mult, Nothing),
];

static HID: [Field; 5] = [
    Field("bLength             ", 0, Decimal(1, 5), Nothing),
    Field("bDescriptorType     ", 1, Decimal(1, 5), Nothing),
    Field("bcdHID              ", 2, Version, Nothing),
    Field("bCountryCode        ", 4, Decimal(1, 5), Country),
    Field("bNumDescriptors     ", 5, Decimal(1, 5), Nothing),
];

/// What a HID descriptor says of each descriptor that it counts.
pub(crate) static HID_COUNTED: [Field; 2] = [
    Field("bDescriptorType     ", 0, Decimal(1, 5), HidType),
    Field("wDescriptorLength   ", 1, Decimal(2, 5), Nothing),
];

static DFU: [Field; 5] = [
    Field(
        "bLength                         ",
        0,
        Decimal(1, 5),
        Nothing,
    ),
    Field(
        "bDescriptorType                 ",
        1,
        Decimal(1, 5),
        Nothing,
    ),
    Field(
        "bmAttributes                    ",
        2,
        Decimal(1, 5),
        Lines(FlagSet::Dfu),
    ),
    Field(
        "wDetachTimeout                  ",
        3,
        Decimal(2, 5),
        Text(" milliseconds"),
    ),
    Field(
        "wTransferSize                   ",
        5,
        Decimal(2, 5),
        Text(" bytes"),
    ),
];

/// DFU 1.1 has a version.
static DFU_1_1: [Field; 6] = [
    Field(
        "bLength                         ",
        0,
        Decimal(1, 5),
        Nothing,
    ),
    Field(
        "bDescriptorType                 ",
        1,
        Decimal(1, 5),
        Nothing,
    ),
    Field(
        "bmAttributes                    ",
        2,
        Decimal(1, 5),
        Lines(FlagSet::Dfu),
    ),
    Field(
        "wDetachTimeout                  ",
        3,
        Decimal(2, 5),
        Text(" milliseconds"),
    ),
    Field(
        "wTransferSize                   ",
        5,
        Decimal(2, 5),
        Text(" bytes"),
    ),
    Field("bcdDFUVersion                   ", 7, ShortVersion, Nothing),
];

static CCID: [Field; 22] = [
    Field("bLength             ", 0, Decimal(1, 5), Nothing),
    Field("bDescriptorType     ", 1, Decimal(1, 5), Nothing),
    Field("bcdCCID             ", 2, Version, OnlyFirst),
    Field("nMaxSlotIndex       ", 4, Decimal(1, 5), Nothing),
    Field(
        "bVoltageSupport     ",
        5,
        Decimal(1, 5),
        Words(FlagSet::Voltages),
    ),
    Field(
        "dwProtocols         ",
        6,
        Decimal(4, 5),
        Words(FlagSet::Protocols),
    ),
    Field("dwDefaultClock      ", 10, Decimal(4, 5), Nothing),
    Field("dwMaximumClock      ", 14, Decimal(4, 5), Nothing),
    Field("bNumClockSupported  ", 18, Decimal(1, 5), Nothing),
    Field("dwDataRate        ", 19, Decimal(4, 7), Text(" bps")),
    Field("dwMaxDataRate     ", 23, Decimal(4, 7), Text(" bps")),
    Field("bNumDataRatesSupp.  ", 27, Decimal(1, 5), Nothing),
    Field("dwMaxIFSD           ", 28, Decimal(4, 5), Nothing),
    Field(
        "dwSyncProtocols  ",
        32,
        Mask,
        Words(FlagSet::SynchProtocols),
    ),
    Field("dwMechanical     ", 36, Mask, Words(FlagSet::Mechanical)),
    Field("dwFeatures       ", 40, Mask, Lines(FlagSet::Features)),
    Field("dwMaxCCIDMsgLen     ", 44, Decimal(4, 5), Nothing),
    Field("bClassGetResponse    ", 48, Echo, Nothing),
    Field("bClassEnvelope       ", 49, Echo, Nothing),
    Field("wlcdLayout           ", 50, Screen, Nothing),
    Field(
        "bPINSupport         ",
        52,
        Decimal(1, 5),
        Words(FlagSet::Pin),
    ),
    Field("bMaxCCIDBusySlots   ", 53, Decimal(1, 5), Nothing),
];

static CDC_HEADER: [Field; 1] = [Field("bcdCDC               ", 3, ShortVersion, Nothing)];

static CDC_CALL_MANAGEMENT: [Field; 2] = [
    Field(
        "bmCapabilities       ",
        3,
        Bits(1),
        Lines(FlagSet::CallManagement),
    ),
    Field("bDataInterface          ", 4, Decimal(1, 0), Nothing),
];

static CDC_ABSTRACT_CONTROL: [Field; 1] = [Field(
    "bmCapabilities       ",
    3,
    Bits(1),
    Lines(FlagSet::AbstractControl),
)];

static CDC_UNION: [Field; 1] = [Field("bMasterInterface        ", 3, Decimal(1, 0), Nothing)];

static CDC_TELEPHONE: [Field; 1] = [Field(
    "bmCapabilities       ",
    3,
    Bits(1),
    Lines(FlagSet::Telephone),
)];

static CDC_CHANNEL: [Field; 4] = [
    Field("bEntityId               ", 3, Decimal(1, 3), Nothing),
    Field("iName                   ", 4, Decimal(1, 3), Nothing),
    Field("bChannelIndex           ", 5, Decimal(1, 3), Nothing),
    Field("bPhysicalInterface      ", 6, Decimal(1, 3), Nothing),
];

static CDC_ETHERNET: [Field; 5] = [
    Field("iMacAddress             ", 3, Decimal(1, 10), Nothing),
    Field("bmEthernetStatistics    ", 4, Bits(4), Nothing),
    Field("wMaxSegmentSize         ", 8, Decimal(2, 10), Nothing),
    Field("wNumberMCFilters            ", 10, Bits(2), Nothing),
    Field("bNumberPowerFilters     ", 12, Decimal(1, 10), Nothing),
];

/// The version of a handset's or an exchange's descriptor.
static CDC_VERSION: [Field; 1] = [Field("bcdVersion           ", 3, ShortVersion, Nothing)];

static CDC_MANAGEMENT: [Field; 2] = [
    Field("bcdVersion           ", 3, ShortVersion, Nothing),
    Field("wMaxCommand          ", 5, Decimal(2, 0), Nothing),
];

static CDC_NETWORK: [Field; 2] = [
    Field("bcdNcmVersion        ", 3, ShortVersion, Nothing),
    Field(
        "bmNetworkCapabilities ",
        5,
        Bits(1),
        Lines(FlagSet::Network),
    ),
];

static CDC_MOBILE: [Field; 6] = [
    Field("bcdMBIMVersion       ", 3, ShortVersion, Nothing),
    Field("wMaxControlMessage   ", 5, Decimal(2, 0), Nothing),
    Field("bNumberFilters       ", 7, Decimal(1, 0), Nothing),
    Field("bMaxFilterSize       ", 8, Decimal(1, 0), Nothing),
    Field("wMaxSegmentSize      ", 9, Decimal(2, 0), Nothing),
    Field(
        "bmNetworkCapabilities ",
        11,
        Bits(1),
        Lines(FlagSet::Mobile),
    ),
];

static CDC_EXTENDED: [Field; 3] = [
    Field("bcdMBIMExtendedVersion          ", 3, Version, Nothing),
    Field(
        "bMaxOutstandingCommandMessages    ",
        5,
        Decimal(1, 3),
        Nothing,
    ),
    Field(
        "wMTU                            ",
        6,
        Decimal(2, 5),
        Nothing,
    ),
];

/// A table without bytes of no field.
fn plain(title: &'static str, margin: &'static str, fields: &'static [Field]) -> Layout {
    Layout {
        title,
        margin,
        fields,
        rest: Rest::Unprinted,
    }
}

/// A table behind whose fields something else is printed.
fn with_rest(
    title: &'static str,
    margin: &'static str,
    fields: &'static [Field],
    rest: Rest,
) -> Layout {
    Layout {
        title,
        margin,
        fields,
        rest,
    }
}

/// The table of a device descriptor.
pub(crate) fn device() -> Layout {
    plain("Device Descriptor:\n", "  ", &DEVICE)
}

/// That of a configuration.
pub(crate) fn configuration() -> Layout {
    plain("  Configuration Descriptor:\n", "    ", &CONFIGURATION)
}

/// That of an interface.
pub(crate) fn interface() -> Layout {
    plain("    Interface Descriptor:\n", "      ", &INTERFACE)
}

/// That of an interface association.
pub(crate) fn association() -> Layout {
    plain("    Interface Association:\n", "      ", &ASSOCIATION)
}

/// That of an endpoint of so many bytes; one of an audio device has 9.
pub(crate) fn endpoint(size: usize) -> Layout {
    let fields: &'static [Field] = if size == 9 {
        &AUDIO_ENDPOINT
    } else {
        &ENDPOINT
    };
    plain("      Endpoint Descriptor:\n", "        ", fields)
}

/// That of the companion of an endpoint with these attributes. It goes on with the endpoint's own.
pub(crate) fn companion(attributes: u8) -> Layout {
    let fields: &'static [Field] = match attributes % 4 {
        1 => &ISOCHRONOUS_COMPANION,
        2 => &BULK_COMPANION,
        _ => &COMPANION,
    };
    plain("", "        ", fields)
}

/// That of a HID descriptor.
pub(crate) fn hid() -> Layout {
    with_rest(
        "        HID Device Descriptor:\n",
        "          ",
        &HID,
        Rest::Counted,
    )
}

/// That of a descriptor of a smart card reader.
pub(crate) fn ccid() -> Layout {
    with_rest(
        "      ChipCard Interface Descriptor:\n",
        "        ",
        &CCID,
        Rest::Junk,
    )
}

/// That of a DFU descriptor of so many bytes; DFU 1.1 has 9.
pub(crate) fn dfu(size: usize) -> Layout {
    let fields: &'static [Field] = if size >= 9 { &DFU_1_1 } else { &DFU };
    plain(
        "      Device Firmware Upgrade Interface Descriptor:\n",
        "        ",
        fields,
    )
}

/// That of a functional descriptor of a communications device, by its subtype; None of a rare one.
pub(crate) fn functional(subtype: u8) -> Option<Layout> {
    let (title, fields): (&'static str, &'static [Field]) = match subtype {
        0x00 => ("      CDC Header:\n", &CDC_HEADER),
        0x01 => ("      CDC Call Management:\n", &CDC_CALL_MANAGEMENT),
        0x02 => ("      CDC ACM:\n", &CDC_ABSTRACT_CONTROL),
        0x06 => ("      CDC Union:\n", &CDC_UNION),
        0x08 => ("      CDC Telephone operations:\n", &CDC_TELEPHONE),
        0x0a => ("      Network Channel Terminal:\n", &CDC_CHANNEL),
        0x0f => ("      CDC Ethernet:\n", &CDC_ETHERNET),
        0x11 => ("      CDC WHCM:\n", &CDC_VERSION),
        0x14 => ("      CDC Device Management:\n", &CDC_MANAGEMENT),
        0x15 => ("      CDC OBEX:\n", &CDC_VERSION),
        0x1a => ("      CDC NCM:\n", &CDC_NETWORK),
        0x1b => ("      CDC MBIM:\n", &CDC_MOBILE),
        0x1c => ("      CDC MBIM Extended:\n", &CDC_EXTENDED),
        _ => return None,
    };
    let rest = if subtype == 0x06 {
        Rest::Interfaces
    } else {
        Rest::Junk
    };
    Some(with_rest(title, "        ", fields, rest))
}

impl Layout {
    /// How many bytes its fields have, with those in front that no field prints.
    pub(crate) fn length(&self) -> usize {
        match self.fields.last() {
            Some(field) => field.end(),
            None => 0,
        }
    }
}
