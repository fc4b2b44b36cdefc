//! What there is to do with events.

ghost use Rattle.std.specs.Prelude.{◌≡◌, ◌||◌, not};

/// What there is to do for those who handle events (libusb 1.0, `libusb_handle_events`).
#[derive(Clone, Copy, PartialEq, Eq, Debug)]
pub struct Events {
    /// Whether an event waits to be handled.
    pub deliver: bool,
    /// Whether a result waits to go out.
    pub take: bool,
}

impl Events {
    /// Whether there is nothing.
    pub fn is_none(&self) -> bool
        ensures { result ≡ not (self.now.deliver || self.now.take) }
    {
        !(self.deliver || self.take)
    }
}
