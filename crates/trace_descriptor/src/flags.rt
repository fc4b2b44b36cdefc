//! What the bits of numbers in descriptors say, in the words of `lsusb -v`.

use crate::text::DescriptorText;
use std::alloc::AllocError;

/// A number's bits by the field that has them.
#[derive(Clone, Copy)]
pub(crate) enum FlagSet {
    /// bmAttributes of a configuration (USB 2.0, table 9-10).
    Power,
    /// bmAttributes of a DFU descriptor (DFU 1.1, 4.1.3).
    Dfu,
    /// bVoltageSupport of a smart card reader (CCID 1.1, 5.1).
    Voltages,
    /// Its dwProtocols.
    Protocols,
    /// Its dwSynchProtocols.
    SynchProtocols,
    /// Its dwMechanical.
    Mechanical,
    /// Its dwFeatures.
    Features,
    /// Its bPINSupport.
    Pin,
    /// bmCapabilities of call management (CDC PSTN 1.2, 5.3.1).
    CallManagement,
    /// Those of an abstract modem (CDC PSTN 1.2, 5.3.2).
    AbstractControl,
    /// Those of a telephone (CDC PSTN 1.2, 5.3.6).
    Telephone,
    /// bmNetworkCapabilities of a network device (CDC NCM 1.0, 5.2.1).
    Network,
    /// The same of a mobile one (CDC MBIM 1.0, 6.4).
    Mobile,
}

/// What is printed where one of the first bits is set, if there are any, and none of the second.
#[derive(Clone, Copy)]
struct Flag(u64, u64, &'static str);

static POWER: [Flag; 5] = [
    Flag(0, 0x80, "(Missing must-be-set bit!)"),
    Flag(0x40, 0, "Self Powered"),
    Flag(0, 0x40, "(Bus Powered)"),
    Flag(0x20, 0, "Remote Wakeup"),
    Flag(0x10, 0, "Battery Powered"),
];

static DFU: [Flag; 9] = [
    Flag(0xf0, 0, "(unknown attributes!)"),
    Flag(0x08, 0, "Will Detach"),
    Flag(0, 0x08, "Will Not Detach"),
    Flag(0x04, 0, "Manifestation Tolerant"),
    Flag(0, 0x04, "Manifestation Intolerant"),
    Flag(0x02, 0, "Upload Supported"),
    Flag(0, 0x02, "Upload Unsupported"),
    Flag(0x01, 0, "Download Supported"),
    Flag(0, 0x01, "Download Unsupported"),
];

static VOLTAGES: [Flag; 3] = [Flag(1, 0, "5.0V"), Flag(2, 0, "3.0V"), Flag(4, 0, "1.8V")];

static PROTOCOLS: [Flag; 3] = [
    Flag(1, 0, "T=0"),
    Flag(2, 0, "T=1"),
    Flag(0xffff_fffc, 0, "(Invalid values detected)"),
];

static SYNCH_PROTOCOLS: [Flag; 3] = [
    Flag(1, 0, "2-wire"),
    Flag(2, 0, "3-wire"),
    Flag(4, 0, "I2C"),
];

static MECHANICAL: [Flag; 4] = [
    Flag(1, 0, "accept"),
    Flag(2, 0, "eject"),
    Flag(4, 0, "capture"),
    Flag(8, 0, "lock"),
];

static FEATURES: [Flag; 13] = [
    Flag(0x0002, 0, "Auto configuration based on ATR"),
    Flag(0x0004, 0, "Auto activation on insert"),
    Flag(0x0008, 0, "Auto voltage selection"),
    Flag(0x0010, 0, "Auto clock change"),
    Flag(0x0020, 0, "Auto baud rate change"),
    Flag(0x0040, 0, "Auto parameter negotiation made by CCID"),
    Flag(0x0080, 0x0040, "Auto PPS made by CCID"),
    Flag(0x0100, 0, "CCID can set ICC in clock stop mode"),
    Flag(0x0200, 0, "NAD value other than 0x00 accepted"),
    Flag(0x0400, 0, "Auto IFSD exchange"),
    Flag(0x0001_0000, 0, "TPDU level exchange"),
    Flag(0x0002_0000, 0x0001_0000, "Short APDU level exchange"),
    Flag(
        0x0004_0000,
        0x0003_0000,
        "Short and extended APDU level exchange",
    ),
];

static PIN: [Flag; 2] = [Flag(1, 0, "verification"), Flag(2, 0, "modification")];

static CALL_MANAGEMENT: [Flag; 2] = [
    Flag(0x01, 0, "call management"),
    Flag(0x02, 0, "use DataInterface"),
];

static ABSTRACT_CONTROL: [Flag; 4] = [
    Flag(0x08, 0, "connection notifications"),
    Flag(0x04, 0, "sends break"),
    Flag(0x02, 0, "line coding and serial state"),
    Flag(0x01, 0, "get/set/clear comm features"),
];

static TELEPHONE: [Flag; 3] = [
    Flag(0x04, 0, "computer centric mode"),
    Flag(0x02, 0, "standalone mode"),
    Flag(0x01, 0, "simple mode"),
];

static NETWORK: [Flag; 6] = [
    Flag(0x20, 0, "8-byte ntb input size"),
    Flag(0x10, 0, "crc mode"),
    Flag(0x08, 0, "max datagram size"),
    Flag(0x04, 0, "encapsulated commands"),
    Flag(0x02, 0, "net address"),
    Flag(0x01, 0, "packet filter"),
];

static MOBILE: [Flag; 2] = [
    Flag(0x20, 0, "8-byte ntb input size"),
    Flag(0x08, 0, "max datagram size"),
];

impl FlagSet {
    /// What its bits say.
    fn flags(self) -> &'static [Flag] {
        match self {
            FlagSet::Power => &POWER,
            FlagSet::Dfu => &DFU,
            FlagSet::Voltages => &VOLTAGES,
            FlagSet::Protocols => &PROTOCOLS,
            FlagSet::SynchProtocols => &SYNCH_PROTOCOLS,
            FlagSet::Mechanical => &MECHANICAL,
            FlagSet::Features => &FEATURES,
            FlagSet::Pin => &PIN,
            FlagSet::CallManagement => &CALL_MANAGEMENT,
            FlagSet::AbstractControl => &ABSTRACT_CONTROL,
            FlagSet::Telephone => &TELEPHONE,
            FlagSet::Network => &NETWORK,
            FlagSet::Mobile => &MOBILE,
        }
    }
}

impl Flag {
    /// Whether it is printed of a number.
    fn is_of(&self, bits: u64) -> bool {
        (self.0 == 0 || bits & self.0 != 0) && bits & self.1 == 0
    }
}

/// Puts what a number's bits say behind a text, in the same line, each behind a space, and another in front of the first.
pub(crate) fn put_flag_words(
    text: &mut DescriptorText,
    set: FlagSet,
    bits: u64,
) -> Result<(), AllocError> {
    let mut space = "  ";
    for flag in set.flags() {
        if flag.is_of(bits) {
            text.put(space)?;
            text.put(flag.2)?;
            space = " ";
        }
    }
    Ok(())
}

/// Puts it behind a text, each in a line of its own, two columns further to the right than the descriptor.
pub(crate) fn put_flag_lines(
    text: &mut DescriptorText,
    margin: &str,
    set: FlagSet,
    bits: u64,
) -> Result<(), AllocError> {
    for flag in set.flags() {
        if flag.is_of(bits) {
            text.put("\n")?;
            text.put(margin)?;
            text.put("  ")?;
            text.put(flag.2)?;
        }
    }
    Ok(())
}
