//! What a word had to be, in a text of devices or in a scenario. No contract says which of them is told.

/// What a word has to be.
#[derive(Clone, Copy, PartialEq, Eq, Debug)]
pub enum Expected {
    /// A handle: a decimal number from 0 to 63.
    Handle,
    /// A device: a decimal number from 0 to 3.
    Device,
    /// An interface: a decimal number from 0 to 255.
    Interface,
    /// An endpoint: two hexadecimal digits.
    Endpoint,
    /// The number of a transfer or of a callback: decimal, below 2^64.
    Number,
    /// Bytes: an even number of hexadecimal digits.
    Bytes,
    /// The kind of an endpoint: `bulk` or `int`.
    Kind,
    /// A length: a decimal number below 2^32.
    Length,
    /// The option `flags=` with names of flags.
    Flags,
    /// The option `timeout=` with a decimal number below 2^32.
    Timeout,
    /// The option `then=` with a rule.
    Rule,
    /// An option, in its turn.
    Option,
    /// An answer of an endpoint for IN.
    InAnswer,
    /// An answer of an endpoint for OUT.
    OutAnswer,
    /// What stands behind `a:`: an even number of hexadecimal digits, and `*` where more may follow.
    PacketBytes,
}
