//! How a transfer stands or ended, in Linux's numbers.

ghost use Rattle.std.specs.Prelude.{◌≡◌, ◌≤◌};
ghost use Rattle.trace_capture.specs.Event.{errno_number};

/// The status of a transfer in the kernel (Linux, Documentation/driver-api/usb/error-codes.rst).
#[derive(Clone, Copy, PartialEq, Eq, Debug)]
pub enum Errno {
    /// 0: it ended as it was asked for.
    Success,
    /// -2, ENOENT: it was withdrawn.
    NoEntry,
    /// -32, EPIPE: the endpoint is halted.
    Pipe,
    /// -71, EPROTO: a transaction failed all its retries.
    Protocol,
    /// -75, EOVERFLOW: the device sent more than was asked for.
    Overflow,
    /// -108, ESHUTDOWN: the device is gone.
    Shutdown,
    /// -115, EINPROGRESS: it was submitted.
    InProgress,
    /// -121, EREMOTEIO: fewer bytes came than were asked for, where that is an error.
    RemoteIo,
}

impl Errno {
    /// Its number without the minus sign, 0 to 121.
    pub fn number(self) -> u64
        ensures value { result ≡ errno_number self }
        ensures below { result ≤ 121 }
    {
        match self {
            Errno::Success => 0,
            Errno::NoEntry => 2,
            Errno::Pipe => 32,
            Errno::Protocol => 71,
            Errno::Overflow => 75,
            Errno::Shutdown => 108,
            Errno::InProgress => 115,
            Errno::RemoteIo => 121,
        }
    }
}
