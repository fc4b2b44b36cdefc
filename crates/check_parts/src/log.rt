//! A log with two bearers, each of whose tokens may cross threads.

ghost use Rattle.std.specs.Prelude.{ℕ, IfOk, List, [], ◌∷◌, ◌≡◌};

use anyhow::Result;
use std::alloc::{AllocError, Global};
use std::mem::size_of;
use usb_receipts::{Borne, Keeper, Log, Position};

/// An entry: for which bearer it is, and what it says.
#[derive(Clone, Copy, PartialEq, Eq, Debug)]
pub struct Note {
    bearer: u64,
    word: u64,
}

impl Borne for Note {
    ghost bearer = { λ note. note.bearer };
}

/// Plays the scene of the log. What its tokens know is proved, and can't be looked at: they have no bytes.
pub fn play<P: Print>(rt: &P, alloc: Global) -> Result<()> {
    let (_keeper, _position) = three_entries(alloc)?;
    let (keeper, position) = (size_of::<Keeper<Note>>(), size_of::<Position<Note>>());
    println!(rt; "a log: its keeper has {keeper} bytes, and a position {position}")?;
    Ok(())
}

/// A log is shared by threads.
fn shared<T: Send + Sync>(value: T) -> T
    ensures { result ≡ value }
{
    value
}

/// Tokens cross threads.
fn crosses<T: Send>(value: T) -> T
    ensures { result ≡ value }
{
    value
}

/// A note of this bearer.
fn noted(bearer: u64, word: u64) -> Note
    ensures { result ≡ record { bearer = bearer; word = word } }
{
    Note { bearer, word }
}

/// Three entries by two bearers: the keeper, who took in the claims of the first, and the first's position, who then looked.
fn three_entries(alloc: Global) -> Result<(Keeper<Note>, Position<Note>), AllocError>
    ensures entries { IfOk result (λ r. r.0.entries ≡ record { bearer = 0; word = 7 } ∷ record { bearer = 0; word = 9 } ∷ record { bearer = 1; word = 8 } ∷ []) }
    ensures taken { IfOk result (λ r. r.0.taken ≡ (0, record { bearer = 0; word = 7 }) ∷ (1, record { bearer = 0; word = 9 }) ∷ []) }
    ensures seen { IfOk result (λ r. r.1.positions ≡ (0, r.0.entries) ∷ []) }
{
    let (log, keeper) = Log::open(alloc)?;
    let log = shared(log);
    let mut keeper = crosses(keeper);
    let mut first = crosses(log.position(&mut keeper));
    let mut second = log.position(&mut keeper);
    let earlier = crosses(log.enter(&mut keeper, &mut first, noted(0, 7)));
    let later = log.enter(&mut keeper, &mut first, noted(0, 9));
    let _other = log.enter(&mut keeper, &mut second, noted(1, 8));
    log.look(&mut keeper, &mut first);
    log.take_in(&mut keeper, earlier);
    log.take_in(&mut keeper, later);
    log.check(&mut keeper);
    Ok((keeper, first))
}
