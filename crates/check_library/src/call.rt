//! A call as a value.

use example_devices::Reader;
use usb_model::Step;

/// A call of a handle's that submits nothing.
#[derive(Clone, Copy)]
pub enum Ask {
    /// Opens the device.
    Open,
    /// Claims the interface.
    Claim,
    /// Ends a halt.
    ClearHalt,
    /// Resets the device.
    Reset,
    /// Releases the interface.
    Release,
    /// Closes the device.
    Close,
    /// Cancels the transfer of this number.
    Cancel(u64),
}

impl Ask {
    /// The step that it makes, by a handle with an endpoint.
    pub fn step(self, reader: &Reader) -> Step {
        let Reader { h, dev, i, ep, .. } = *reader;
        match self {
            Ask::Open => Step::Open { h, dev },
            Ask::Claim => Step::Claim { h, i },
            Ask::ClearHalt => Step::ClearHalt { h, ep },
            Ask::Reset => Step::Reset { h },
            Ask::Release => Step::Release { h, i },
            Ask::Close => Step::Close { h },
            Ask::Cancel(n) => Step::Cancel { h, n },
        }
    }
}

/// A call of the library by its one caller. Transfers are named by number, endpoints by address.
#[derive(Clone, Copy)]
pub enum Call {
    /// A handle's, which submits nothing.
    Ask(Ask),
    /// Submits a read of so many bytes with this timeout in milliseconds, 0 for none.
    Read(u32, u32),
    /// Submits a write of 3 bytes.
    Write,
    /// Submits the transfer of a callback once more.
    Again(u64),
    /// The same with another byte to be sent.
    AgainWith(u64),
    /// The device answers one packet at an endpoint.
    Serve(u8),
    /// The controller carries out an order.
    Command,
    /// An event is handled.
    Deliver,
    /// A result goes out to its callback.
    Take,
    /// Ends the callback of a transfer.
    Stop(u64),
    /// It is so many milliseconds after the beginning.
    Tick(u64),
    /// The device is gone.
    Unplug,
    /// The device answers packets in a row, at most so many.
    ServeAll(u32),
    /// Events are handled in a row, at most so many.
    DeliverAll(u32),
    /// Results go out in a row, at most so many.
    TakeAll(u32),
}
