//! Which endpoints a device has, for sentences. No contract says which these are.

use std::fmt;
use usb_descriptors::Config;
use usb_model::{EpAddr, Kind};

/// How many ids endpoints have: one for each number and direction.
const IDS: u8 = 32;

/// A set of endpoints, told in the order of their ids: `81, 02 and 83`, or `none`.
#[derive(Clone, Copy, PartialEq, Eq, Debug)]
pub struct EndpointSet {
    /// The bit of each endpoint's id.
    ids: u32,
}

impl EndpointSet {
    /// The bulk and interrupt endpoints of a configuration, which are those that have scripts.
    pub(crate) fn scripted(config: &Config) -> EndpointSet {
        let mut ids: u32 = 0;
        for info in config.endpoints() {
            if matches!(info.kind, Kind::Bulk | Kind::Interrupt) {
                ids |= bit(info.address.id());
            }
        }
        EndpointSet { ids }
    }

    /// Whether the endpoint of this id is one of them.
    fn has(self, id: u8) -> bool {
        self.ids & bit(id) != 0
    }
}

/// The bit of an id.
fn bit(id: u8) -> u32 {
    1_u32.wrapping_shl(u32::from(id))
}

/// The address of the endpoint with this id.
fn address(id: u8) -> EpAddr {
    let direction = if id % 2 == 1 { 128 } else { 0 };
    EpAddr::new(id / 2 + direction)
}

/// What stands behind a word of which so many follow.
fn between(more: u32) -> &'static str {
    match more {
        0 => "",
        1 => " and ",
        _ => ", ",
    }
}

impl fmt::Display for EndpointSet {
    fn fmt<W: fmt::Write>(&self, f: &mut fmt::Formatter<W>) -> fmt::Result {
        let mut more = self.ids.count_ones();
        if more == 0 {
            return f.write_str("none");
        }
        for id in 0..IDS {
            if self.has(id) {
                more = more.saturating_sub(1);
                let (ep, behind) = (address(id), between(more));
                write!(f, "{ep}{behind}")?;
            }
        }
        Ok(())
    }
}
