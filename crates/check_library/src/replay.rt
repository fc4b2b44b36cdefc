//! Whether each handle was told beside others what it is told alone.

use crate::load::DEVICES;
use anyhow::{Result, anyhow};
use example_devices::devices;
use std::alloc::Global;
use usb_journal::Place;
use usb_model::{Entry, Name, Reply, Sequence, Step};
use usb_plans::alone;

/// An error where two entries don't print the same.
fn is_same(alloc: Global, one: &Entry, other: &Entry) -> Result<()> {
    let one = format!(in alloc; "{one}")?;
    let other = format!(in alloc; "{other}")?;
    if one.as_str() != other.as_str() {
        return Err(anyhow!("beside others a handle is told {one}, and alone {other}"));
    }
    Ok(())
}

/// Whether a place is this handle's.
fn is_own(place: &Place, h: Name) -> bool {
    match place.entry.owner {
        Some(owner) => owner == h,
        None => false,
    }
}

/// An error where a handle's places of a journal don't have just the entries that it is told alone.
fn are_same(alloc: Global, places: &[Place], h: Name, alone: &[Entry]) -> Result<()> {
    let mut told: usize = 0;
    for place in places {
        if is_own(place, h) {
            let Some(entry) = alone.get(told) else {
                return Err(anyhow!("a handle is told less alone"));
            };
            is_same(alloc, &place.entry, entry)?;
            told = told.saturating_add(1);
        }
    }
    if told < alone.len() {
        return Err(anyhow!("a handle is told more alone"));
    }
    Ok(())
}

/// How many callbacks these entries tell, where their numbers rise from 0 on.
fn callbacks_in(entries: &[Entry]) -> Option<u64> {
    let mut count: u64 = 0;
    for entry in entries {
        if let Reply::Called(returned) = &entry.reply {
            if returned.n != count {
                return None;
            }
            count = count.saturating_add(1);
        }
    }
    Some(count)
}

/// The steps of a journal.
fn steps_of(alloc: Global, places: &[Place]) -> Result<Vec<Step>> {
    let mut steps = Vec::with_capacity(alloc, places.len())?;
    for place in places {
        steps.push(place.step.clone()?)?;
    }
    Ok(steps)
}

/// What a handle is told alone of its own of these steps, over devices with these packets.
fn told_alone(alloc: Global, sizes: &[u16], steps: &[Step], h: Name) -> Result<Sequence<Entry>> {
    let setup = devices(alloc, DEVICES, 8, sizes)?;
    Ok(alone(alloc, setup, steps, h)?.alone)
}

/// How many handles were told what they are told alone, and how many callbacks they have.
#[derive(Clone, Copy, Default)]
pub struct Compared {
    /// The handles.
    pub handles: u64,
    /// Their callbacks.
    pub callbacks: u64,
}

impl Compared {
    /// With another handle, which has so many callbacks.
    fn add(&mut self, callbacks: u64) {
        self.handles = self.handles.saturating_add(1);
        self.callbacks = self.callbacks.saturating_add(callbacks);
    }
}

/// How many of so many handles were told what they are told alone, over devices with these packets, and of how many callbacks. An
/// error where one was told something else, or of callbacks out of their order.
pub fn are_alone(alloc: Global, places: &[Place], sizes: &[u16], handles: u8) -> Result<Compared> {
    let steps = steps_of(alloc, places)?;
    let mut all = Compared::default();
    for h in 0..handles {
        let Some(h) = Name::new(h) else {
            return Err(anyhow!("no such name"));
        };
        let alone = told_alone(alloc, sizes, steps.as_slice(), h)?;
        are_same(alloc, places, h, alone.as_slice())?;
        match callbacks_in(alone.as_slice()) {
            Some(callbacks) => all.add(callbacks),
            None => return Err(anyhow!("a handle has callbacks out of their order")),
        }
    }
    Ok(all)
}
