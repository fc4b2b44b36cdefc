//! Why a table of descriptors ends before its input does.

use std::fmt;

/// What is wrong where a table ends.
#[derive(Clone, Copy, PartialEq, Eq, Debug)]
pub enum StopReason {
    /// The device descriptor isn't one of 18 bytes.
    OtherDevice,
    /// The input ends in the device descriptor.
    CutDevice,
    /// No configuration begins there.
    NoConfiguration,
    /// A configuration of fewer bytes than its own descriptor has.
    ShortTotal,
    /// A descriptor of fewer than two bytes, or one that goes on behind its configuration.
    BadLength,
    /// The input ends within a configuration.
    CutConfiguration,
    /// The input ends before a configuration that the device counts: the number of those that are there, and of all.
    FewConfigurations(u64, u8),
}

/// Where a table ends before its input does, and why.
#[derive(Clone, Copy, PartialEq, Eq, Debug)]
pub struct TableStop {
    /// The byte of the input from which on nothing is read, from 0.
    pub at: usize,
    /// Why.
    pub why: StopReason,
}

impl fmt::Display for StopReason {
    fn fmt<W: fmt::Write>(&self, f: &mut fmt::Formatter<W>) -> fmt::Result {
        match self {
            StopReason::OtherDevice => f.write_str("a device descriptor of other than 18 bytes"),
            StopReason::CutDevice => {
                f.write_str("the input ends before the device descriptor does")
            },
            StopReason::NoConfiguration => f.write_str("no configuration begins here"),
            StopReason::ShortTotal => f.write_str("wTotalLength is below 9"),
            StopReason::BadLength => f.write_str("a descriptor of an impossible length"),
            StopReason::CutConfiguration => {
                f.write_str("the input ends before the configuration does")
            }
            StopReason::FewConfigurations(there, all) => {
                write!(f, "the input ends behind {there} of {all} configurations")
            }
        }
    }
}

/// As the line of a table has it.
impl fmt::Display for TableStop {
    fn fmt<W: fmt::Write>(&self, f: &mut fmt::Formatter<W>) -> fmt::Result {
        let (at, why) = (self.at, self.why);
        write!(f, "byte {at}: {why}")
    }
}
