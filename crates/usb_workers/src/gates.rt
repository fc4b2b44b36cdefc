//! The gates of both workers.

use crate::Open;

/// What the two workers pass before each of their acts.
#[derive(Drop)]
pub struct Gates<G> {
    /// The gate of the worker that does the controller's part.
    pub controller: G,
    /// The gate of the one that handles events and calls callbacks.
    pub events: G,
}

impl Gates<Open> {
    /// Both are always open.
    pub fn open() -> Gates<Open> {
        Gates {
            controller: Open,
            events: Open,
        }
    }
}
