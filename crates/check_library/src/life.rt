//! A library of which one caller makes calls, from its beginning to its end.

ghost use Rattle.std.specs.Prelude.{◌≡◌, IfOk};

use crate::board::Board;
use crate::call::Call;
use crate::single::Single;
use anyhow::{Result, anyhow};
use example_devices::devices;
use std::alloc::Global;
use std::marker::Brand;
use std::result;
use std::sync::Wait;
use usb_device::TableDevice;
use usb_journal::{Journal, Naming, Place, Row};
use usb_library::{Caller, Ended, Library, Opening};
use usb_model::Refused;

/// How many callers a library has at most.
const CALLERS: u32 = 1024;

/// The library of a scene with one caller.
pub type Shared<L> = Library<L, u64, TableDevice, Journal>;

/// What a scene leaves.
#[derive(Drop)]
pub struct Left {
    /// The steps in a row that each call for such made.
    pub rows: Vec<Row>,
    /// What was kept with the results that went out.
    pub kept: Vec<u64>,
    /// The places of the journal.
    pub places: Vec<Place>,
    /// Whether nothing was left to be done.
    pub at_rest: bool,
}

/// Ends a library. None where a caller is missing.
fn ended<L: Naming>(
    alloc: Global,
    library: Shared<L>,
    callers: Vec<Caller<L>>,
) -> Option<Ended<L, u64, TableDevice, Journal>>
    requires { L.parts ≡ 1025 }
{
    library.finish(callers, Vec::new(alloc)).ok()
}

/// Whether nothing was left to be done. None where another number of callers was made than there can be.
fn rest<L: Naming>(ended: &Ended<L, u64, TableDevice, Journal>) -> Option<bool> {
    if ended.made == CALLERS {
        Some(ended.is_at_rest())
    } else {
        None
    }
}

/// What was kept of the journal. The core goes.
fn journal_of<L: Naming>(ended: Ended<L, u64, TableDevice, Journal>) -> Journal {
    let Ended { recorder, .. } = ended;
    recorder
}

/// The places of a library that ends, and whether nothing was left to be done.
fn places<L: Naming>(
    alloc: Global,
    library: Shared<L>,
    callers: Vec<Caller<L>>,
) -> Result<(Vec<Place>, bool)>
    requires { L.parts ≡ 1025 }
{
    let Some(ended) = ended(alloc, library, callers) else {
        return Err(anyhow!("a caller is missing"));
    };
    let rest = rest(&ended);
    let places = journal_of(ended).places(alloc)?;
    match rest {
        Some(at_rest) => Ok((places, at_rest)),
        None => Err(anyhow!("another number of callers was made")),
    }
}

/// One caller more, where there may be one.
fn one_more<L: Naming, R: Wait>(rt: &R, library: &Shared<L>) -> result::Result<Caller<L>, Refused> {
    library.caller(rt)
}

/// All callers that a library can have. An error unless one more is refused.
fn all_callers<L: Naming, R: Wait>(
    rt: &R,
    alloc: Global,
    library: &Shared<L>,
) -> Result<Vec<Caller<L>>> {
    let mut callers = Vec::new(alloc);
    for _ in 0..CALLERS {
        callers.push(one_more(rt, library)?)?;
    }
    match one_more(rt, library) {
        Err(Refused::Busy) => Ok(callers),
        _ => Err(anyhow!("there is a caller too many")),
    }
}

/// The caller makes these calls.
fn made<L: Naming, R: Wait>(
    rt: &R,
    alloc: Global,
    library: &Shared<L>,
    caller: &mut Caller<L>,
    calls: &[Call],
) -> Result<Single> {
    let mut single = Single::new(alloc)?;
    let mut board = Board::new(rt, library, caller);
    single.make_all(&mut board, calls)?;
    Ok(single)
}

/// The last of all callers that there can be makes these calls: all of them, and what it was left with.
fn made_by_last<L: Naming, R: Wait>(
    rt: &R,
    alloc: Global,
    library: &Shared<L>,
    calls: &[Call],
) -> Result<(Vec<Caller<L>>, Single)> {
    let mut callers = all_callers(rt, alloc, library)?;
    let Some(last) = callers.last_mut() else {
        return Err(anyhow!("no caller"));
    };
    let single = made(rt, alloc, library, last, calls)?;
    Ok((callers, single))
}

/// What these calls leave of a library that is made of this.
fn live<L: Naming, R: Wait>(
    rt: &R,
    alloc: Global,
    opening: Opening<TableDevice>,
    calls: &[Call],
) -> Result<Left>
    requires name { opening.name ≡ L.name }
    requires parts { (L.parts ≡ 1025) × (opening.parts ≡ L.parts) }
    requires table { opening.table ≡ L.table }
    requires setup { opening.setup ≡ L.setup }
{
    let library = Library::<L, u64, TableDevice, Journal>::new(alloc, opening)?;
    let (callers, single) = made_by_last(rt, alloc, &library, calls)?;
    let (places, at_rest) = places(alloc, library, callers)?;
    let Single { rows, kept, .. } = single;
    Ok(Left {
        rows,
        kept,
        places,
        at_rest,
    })
}

/// What a library is made of, over so many devices whose endpoints 81 and 83 answer with packets of these sizes.
pub fn opening(alloc: Global, count: u8, sizes: &[u16]) -> Result<Opening<TableDevice>>
    ensures { IfOk result (λ o. o.parts ≡ 1025) }
{
    match Opening::new(alloc, devices(alloc, count, 8, sizes)?) {
        Ok(opening) => Ok(opening),
        Err(_) => Err(anyhow!("no memory")),
    }
}

/// What these calls leave of a library over one device whose endpoints 81 and 83 answer with packets of these sizes.
pub fn play<R: Wait>(rt: &R, alloc: Global, sizes: &[u16], calls: &[Call]) -> Result<Left> {
    live::<Brand, R>(rt, alloc, opening(alloc, 1, sizes)?, calls)
}
