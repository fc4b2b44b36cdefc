//! What all handles left behind, put together of what was gathered.

ghost use Rattle.std.specs.Prelude.{◌≡◌, ◌==◌, ◌++◌, ℕ, IfOk, map};
ghost use Rattle.std.specs.List.{filter, flat_map, list_any};
ghost use Rattle.usb_model.specs.Setup.{Setup as ModelSetup};
ghost use Rattle.usb_model.specs.World.{World};
ghost use Rattle.usb_core.specs.Public.{ShowsWorld};
ghost use Rattle.trace_left.specs.Left.{all_left};
ghost use Rattle.trace_left.specs.Gathered.{as_told, by_events, is_end_of, is_of, joined};

use crate::gather::all_waiting;
use crate::inventory::{Inventory, read_handles};
use crate::left::{Left, Thing};
use std::alloc::{AllocError, Global};
use usb_core::Core;
use usb_device::Scripted;
use usb_model::{EpAddr, Name};

/// Whether this is of the handle.
fn is_of(left: &Left, h: Name) -> bool
    ensures { result ≡ is_of h left.now }
{
    match left {
        Left::Open { h: g, .. } | Left::Held { h: g, .. } | Left::At { h: g, .. } => *g == h,
    }
}

/// Whether this is the event of the transfer of this number that ended at an endpoint.
fn is_end_of(left: &Left, ep: EpAddr, n: u64) -> bool
    ensures { result ≡ is_end_of ep n left.now }
{
    match left {
        Left::At {
            ep: e,
            thing: Thing::Finished { n: k },
            ..
        } => *e == ep && *k == n,
        _ => false,
    }
}

/// Whether the event of that end waits.
fn has_end(own: &[Left], ep: EpAddr, n: u64) -> bool
    ensures { result ≡ list_any (is_end_of ep n) own.now }
{
    own.iter().any(|x| is_end_of(x, ep, n))
}

/// What was read at an endpoint, as it is by what waits of the handle: a transfer in line has ended where its event
/// waits.
fn as_told(own: &[Left], ep: EpAddr, thing: &Thing) -> Thing
    ensures { result ≡ as_told own.now ep thing.now }
{
    match thing {
        Thing::Waits { n } => {
            if has_end(own, ep, *n) {
                Thing::HasEnded { n: *n }
            } else {
                *thing
            }
        }
        _ => *thing,
    }
}

/// What was read of a handle, as it is by what waits of it.
fn by_events(left: &Left, own: &[Left]) -> Left
    ensures { result ≡ by_events own.now left.now }
{
    match left {
        Left::At { h, ep, thing } => Left::At {
            h: *h,
            ep: *ep,
            thing: as_told(own, *ep, thing),
        },
        _ => *left,
    }
}

/// What waits of a handle, among what waits of all.
fn own_of(alloc: Global, waiting: &[Left], h: Name) -> Result<Vec<Left>, AllocError>
    ensures { IfOk result (λ own. own.items ≡ filter (is_of h) waiting.now) }
{
    waiting
        .iter()
        .filter(|x| is_of(x, h))
        .copied()
        .collect(alloc)
}

/// The same of all that was read of a handle.
fn all_by_events(alloc: Global, read: &[Left], own: &[Left]) -> Result<Vec<Left>, AllocError>
    ensures { IfOk result (λ left. left.items ≡ map (by_events own.now) read.now) }
{
    read.iter().map(|x| by_events(x, own)).collect(alloc)
}

/// Adds these.
fn add_all(left: &mut Vec<Left>, more: &[Left]) -> Result<(), AllocError>
    ensures { IfOk result (λ _. left.new.items ≡ left.old.items ++ more.now) }
{
    left.extend_from_slice(more)
}

/// Adds what a handle left behind, of what was read of it and what waits of all.
fn add_joined(
    alloc: Global,
    waiting: &[Left],
    read: &Inventory,
    left: &mut Vec<Left>,
) -> Result<(), AllocError>
    ensures { IfOk result (λ _. left.new.items ≡ left.old.items ++ joined waiting.now read.now) }
{
    let own = own_of(alloc, waiting, read.h)?;
    let at_device = all_by_events(alloc, read.at_device.as_slice(), own.as_slice())?;
    add_all(left, at_device.as_slice())?;
    add_all(left, own.as_slice())?;
    add_all(left, read.callbacks.as_slice())?;
    Ok(())
}

/// What all handles left behind.
fn put_together(
    alloc: Global,
    waiting: &[Left],
    read: &[Inventory],
) -> Result<Vec<Left>, AllocError>
    ensures { IfOk result (λ left. left.items ≡ flat_map (joined waiting.now) read.now) }
{
    let mut left = Vec::new(alloc);
    for one in read {
        add_joined(alloc, waiting, one, &mut left)?;
    }
    Ok(left)
}

/// What the handles haven't finished in the world of a core, by rising name. An error where memory is refused.
pub fn left_behind<P: Drop, D: Scripted>(
    alloc: Global,
    core: Core<P, D>,
) -> Result<Vec<Left>, AllocError>
    ensures { (setup : ModelSetup) (w : World) → ShowsWorld setup core w → IfOk result (λ left. left.items ≡ all_left setup w) }
{
    let mut core = core;
    take_stock(alloc, &mut core)
}

/// The same of a core that is borrowed, whose orders are carried out and whose events are handled.
fn take_stock<P, D: Scripted>(alloc: Global, core: &mut Core<P, D>) -> Result<Vec<Left>, AllocError>
    ensures { (setup : ModelSetup) (w : World) → ShowsWorld setup core.old w → IfOk result (λ left. left.items ≡ all_left setup w) }
{
    let read = read_handles(alloc, core)?;
    let waiting = all_waiting(alloc, core)?;
    put_together(alloc, waiting.as_slice(), read.as_slice())
}
