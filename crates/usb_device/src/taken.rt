//! The packets that an endpoint took.

ghost use Rattle.std.specs.Prelude.{◌≡◌, ◌<◌, ◌≤◌, [], ◌∷◌, ◌++◌, ◌+◌, IfOk, OnOk, length, slice_get, vec_capacity, vec_len};
ghost use Rattle.std.specs.List.{slice_range};
ghost use Rattle.std.specs.Option.{option_copied};
ghost use Rattle.usb_model.specs.Limits.{longest_script};
ghost use Rattle.usb_device.specs.Taken.{Taken, start_of};

use std::alloc::{AllocError, Global};
use std::marker::Model;
use usb_model::limits::LONGEST_SCRIPT;

/// Packets one behind another in one buffer, with room for `places` packets of `size` bytes.
#[derive(Drop)]
pub(crate) struct TakenPackets {
    bytes: Vec<u8>,
    /// Where each packet ends in `bytes`.
    ends: Vec<usize>,
    /// For how many packets there is room in both.
    places: usize,
    size: u16,
}

impl Model for TakenPackets {
    ghost use Rattle.std.specs.Prelude.{◌≤◌, vec_capacity};
    ghost use Rattle.usb_device.specs.Taken.{Taken, IsTaken, cut_at};

    ghost Value = { Taken };

    ghost view = { λ t. record { packets = cut_at 0 t.ends.items t.bytes.items; places = t.places; size = t.size } };

    ghost invariant = { λ t. IsTaken t.bytes.items t.ends.items t.size (vec_capacity t.bytes) t.places × (t.places ≤ vec_capacity t.ends) };
}

/// Where the packet of this index begins.
fn start_of(ends: &[usize], i: usize) -> usize
    requires { i < length ends.now }
    ensures { result ≡ start_of 0 ends.now i }
{
    if i == 0 { 0 } else { ends[i - 1] }
}

/// The bytes from `start` to before `end`.
fn part(bytes: &[u8], start: usize, end: usize) -> &[u8]
    requires start { start ≤ end }
    requires end { end ≤ length bytes.now }
    ensures { result.now ≡ slice_range bytes.now start end }
{
    &bytes[start..end]
}

/// Appends to a buffer that has room.
fn extend_reserved(bytes: &mut Vec<u8>, packet: &[u8])
    requires { vec_len bytes.old + length packet.now ≤ vec_capacity bytes.old }
    ensures items { bytes.new.items ≡ bytes.old.items ++ packet.now }
    ensures len { vec_len bytes.new ≡ vec_len bytes.old + length packet.now }
    ensures capacity { vec_capacity bytes.old ≤ vec_capacity bytes.new }
{
    let _ = bytes.extend_from_slice(packet);
}

/// Room for so many items in all. An error where memory is refused.
fn reserve_to<T>(items: &mut Vec<T>, most: usize) -> Result<(), AllocError>
    ensures items { items.new.items ≡ items.old.items }
    ensures len { vec_len items.new ≡ vec_len items.old }
    ensures room { OnOk result (most ≤ vec_capacity items.new) }
    ensures stays { vec_capacity items.old ≤ vec_capacity items.new }
{
    items.reserve(most.saturating_sub(items.len()))
}

impl TakenPackets {
    /// No packets, with room for so many packets of so many bytes.
    pub(crate) fn new(alloc: Global, places: usize, size: u16) -> Result<TakenPackets, AllocError>
        requires { places ≤ longest_script }
        ensures { IfOk result (λ t. t ≡ record { packets = []; places = places; size = size }) }
    {
        Ok(TakenPackets {
            bytes: Vec::with_capacity(alloc, places * usize::from(size))?,
            ends: Vec::with_capacity(alloc, places)?,
            places,
            size,
        })
    }

    /// Keeps one more packet.
    pub(crate) fn push(&mut self, packet: &[u8])
        requires room { length self.old.packets < self.old.places }
        requires size { length packet.now ≤ self.old.size }
        ensures { self.new ≡ record self.old { packets = self.old.packets ++ packet.now ∷ [] } }
    {
        extend_reserved(&mut self.bytes, packet);
        self.ends.push_reserved(self.bytes.len());
    }

    /// Room for so many packets at least, and then for twice as many as before. An error where memory is refused: the room stays.
    pub(crate) fn grow(&mut self, places: usize) -> Result<(), AllocError>
        requires { places ≤ longest_script }
        ensures packets { self.new.packets ≡ self.old.packets }
        ensures size { self.new.size ≡ self.old.size }
        ensures room { OnOk result (places ≤ self.new.places) }
        ensures stays { self.old.places ≤ self.new.places }
    {
        if places <= self.places {
            return Ok(());
        }
        let most = places.max(self.places.saturating_mul(2).min(LONGEST_SCRIPT));
        reserve_to(&mut self.bytes, most * usize::from(self.size))?;
        reserve_to(&mut self.ends, most)?;
        self.places = most;
        Ok(())
    }

    /// The packet of this index; None past the last.
    pub(crate) fn get(&self, i: usize) -> Option<&[u8]>
        ensures { option_copied result ≡ slice_get self.now.packets i }
    {
        if i >= self.ends.len() {
            return None;
        }
        Some(part(&self.bytes, start_of(&self.ends, i), self.ends[i]))
    }

    /// Lets all packets go. The room stays.
    pub(crate) fn clear(&mut self)
        ensures { self.new ≡ record self.old { packets = [] } }
    {
        self.bytes.clear();
        self.ends.clear();
    }

    /// The most bytes of a packet.
    pub(crate) fn size(&self) -> u16
        ensures { result ≡ self.now.size }
    {
        self.size
    }
}
