//! What the callbacks were told, out of a journal.

ghost use Rattle.std.specs.Prelude.{◌≡◌, ◌+◌, ◌*◌, ◌^◌, ◌++◌, ◌∷◌, [], IfOk, OnOk, filter, if◌then◌else◌};
ghost use Rattle.std.specs.List.Sorted.{IsNonDecreasingBy, IsPermutation};
ghost use Rattle.usb_journal.specs.Booked.{entries_of};
ghost use Rattle.trace_threads.specs.Callbacks.{is_callback, rank};

use std::alloc::{AllocError, Global};
use usb_journal::Place;
use usb_model::{Entry, Name, Reply};

/// How many numbers a handle's transfers may have.
const NUMBERS: u128 = 0x1_0000_0000_0000_0000;

/// Whether a callback was called.
fn is_callback(entry: &Entry) -> bool
    ensures { result ≡ is_callback entry.now }
{
    matches!(&entry.reply, Reply::Called(_))
}

/// Where the line of a transfer's callback stands: by its handle, and then by its number.
fn rank_of(h: Name, n: u64) -> u128
    ensures { result ≡ h * 2 ^ 64 + n }
{
    u128::from(h.number()) * NUMBERS + u128::from(n)
}

/// The same of an entry; those that tell no callback come first.
fn rank(entry: &Entry) -> u128
    ensures { result ≡ rank entry.now }
{
    match &entry.reply {
        Reply::Called(returned) => rank_of(returned.h, returned.n),
        _ => 0,
    }
}

/// Puts what a callback was told at a place behind these, if one was.
fn note(lines: &mut Vec<Entry>, place: Place) -> Result<(), AllocError>
    ensures { OnOk result (lines.new.items ≡ lines.old.items ++ (if is_callback place.entry then place.entry ∷ [] else [])) }
{
    if is_callback(&place.entry) {
        lines.push(place.entry)?;
    }
    Ok(())
}

/// What the callbacks of a journal were told, in its order.
fn told(alloc: Global, places: Vec<Place>) -> Result<Vec<Entry>, AllocError>
    ensures { IfOk result (λ lines. lines.items ≡ filter is_callback (entries_of places.items)) }
{
    let mut lines = Vec::new(alloc);
    for place in places {
        note(&mut lines, place)?;
    }
    Ok(lines)
}

/// The same by handle and number.
pub(crate) fn callbacks_of(alloc: Global, places: Vec<Place>) -> Result<Vec<Entry>, AllocError>
    ensures all { IfOk result (λ lines. IsPermutation (filter is_callback (entries_of places.items)) lines.items) }
    ensures order { IfOk result (λ lines. IsNonDecreasingBy rank lines.items) }
{
    let mut lines = told(alloc, places)?;
    lines.sort_unstable_by_key(|entry| rank(entry));
    Ok(lines)
}
