//! A call of a handle, before anything of it is done.

use crate::system::System;
use usb_model::{Name, Setup};

/// What a call of a handle reads; contracts see the world by `world_in`, and what it is to the handle by `machine_in`.
#[derive(Clone, Copy)]
pub struct Call<'a> {
    /// The devices as they were set up.
    pub setup: &'a Setup,
    /// The system.
    pub system: &'a System,
    /// Whose call it is.
    pub name: Name,
}
