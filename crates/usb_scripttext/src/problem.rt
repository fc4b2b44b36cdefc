//! What is wrong with a bad line, in a text of devices or in a scenario. No contract says which problem is told.

use crate::endpoint_set::EndpointSet;
use crate::expected::Expected;
use usb_descriptors::DescFault;

/// What is wrong with a line: the first thing that reading it met.
#[derive(Clone, Copy, PartialEq, Eq, Debug)]
pub enum Problem {
    /// A byte is above 127.
    Ascii,
    /// The first word is none that a line begins with.
    FirstWord,
    /// The words behind the first word are too few or too many.
    Form,
    /// A word isn't this, as it had to be.
    Word(Expected),
    /// A script has no answer, or more than 65,536, with those that are fed.
    Answers,
    /// A packet has more than 2,048 bytes.
    Packet,
    /// A configuration descriptor has this fault.
    Descriptor(DescFault),
    /// The line may not stand here.
    Place(Misplaced),
}

/// Why a line of a good form may not stand where it does.
#[derive(Clone, Copy, PartialEq, Eq, Debug)]
pub enum Misplaced {
    /// A device or a script stands behind a step.
    Late,
    /// A device isn't the next one, which has this number.
    Turn(usize),
    /// The device of a script, or of answers that are fed, has no line.
    NoDevice,
    /// Their endpoint is no bulk or interrupt endpoint of the device, which has these.
    NoEndpoint(EndpointSet),
    /// The endpoint of a script has answers already.
    SecondScript,
}
