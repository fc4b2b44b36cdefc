//! The line of an endpoint: which transfer is meant, and what is left behind it.

ghost use Rattle.std.specs.Prelude.{◌≡◌, true, map, drop, IfOk, IfNone};
ghost use Rattle.std.specs.List.{position, position_or_len, prefix_len};
ghost use Rattle.std.specs.Option.{option_copied};
ghost use Rattle.usb_model.specs.declared.item.Item.{Item};
ghost use Rattle.usb_model.specs.Endpoint.{first_waiting, with_first, is_waiting, is_blank, is_transfer, in_progress, past_blanks, past_number};
ghost use Rattle.usb_model.specs.Endpoint.Deliver.{blanked, leads_blank};
ghost use Rattle.usb_model.specs.Machine.Calls.{with_ask};

use std::alloc::{AllocError, Global};
use std::mem;
use usb_model::{Ask, Body, Item, ItemState, Request, Sequence};

/// The transfers of an endpoint, in order of submission.
pub(crate) type Line = Sequence<Item>;

/// The first that waits.
#[tactic(auto, unfolding(usb_model::specs::Endpoint::first_waiting))]
pub(crate) fn first_waiting(line: &[Item]) -> Option<&Item>
    ensures { option_copied result ≡ first_waiting line.now }
{
    match line {
        [] => None,
        [first, ..] if first.is_waiting() => Some(first),
        [_, rest @ ..] => first_waiting(rest),
    }
}

/// The place of the first that waits.
pub(crate) fn waiting_place(line: &[Item]) -> Option<usize>
    ensures { result ≡ position is_waiting line.now }
{
    line.iter().position(|item| item.is_waiting())
}

/// The transfer of this number, in progress: the first of this number that is no blank.
#[tactic(auto, unfolding(usb_model::specs::Endpoint::in_progress))]
pub(crate) fn in_progress(line: &[Item], n: u64) -> Option<&Item>
    ensures { option_copied result ≡ in_progress n line.now }
{
    match line {
        [] => None,
        [first, ..] if first.is_transfer(n) => Some(first),
        [_, rest @ ..] => in_progress(rest, n),
    }
}

/// The line behind the blanks at its beginning.
#[tactic(auto, using(crate::proofs::LineWalks::blanks_are_skipped))]
pub(crate) fn past_blanks(alloc: Global, line: Line) -> Result<Line, AllocError>
    ensures { IfOk result (λ l. l ≡ past_blanks line) }
{
    let blanks = leading_blanks(line.as_slice());
    without_front(alloc, line, blanks)
}

/// How many blanks stand at the beginning.
fn leading_blanks(line: &[Item]) -> usize
    ensures { result ≡ prefix_len is_blank line.now }
{
    line.iter().take_while(|item| item.is_blank()).count()
}

/// The line behind the transfer of this number, in progress.
#[tactic(auto, using(crate::proofs::LineWalks::number_is_skipped))]
pub(crate) fn past_number(alloc: Global, line: Line, n: u64) -> Result<Line, AllocError>
    ensures { IfOk result (λ l. l ≡ past_number n line) }
{
    let place = place_of(line.as_slice(), n);
    let from_it = without_front(alloc, line, place)?;
    without_front(alloc, from_it, 1)
}

/// The place of the transfer of this number, in progress; the line's length where there is none.
fn place_of(line: &[Item], n: u64) -> usize
    ensures { result ≡ position_or_len (is_transfer n) line.now }
{
    line.iter().take_while(|item| !item.is_transfer(n)).count()
}

/// The line without its first so many.
fn without_front(alloc: Global, line: Line, count: usize) -> Result<Line, AllocError>
    ensures { IfOk result (λ l. l ≡ drop count line) }
{
    let rest = line.into_vec().into_iter().skip(count).collect(alloc)?;
    Ok(Sequence::from_vec(rest))
}

/// The line with blanks for what is withdrawn.
pub(crate) fn blanked(alloc: Global, line: Line) -> Result<Line, AllocError>
    ensures { IfOk result (λ l. l ≡ map blanked line) }
{
    let items = line
        .into_vec()
        .into_iter()
        .map(|item| blanked_item(item))
        .collect(alloc)?;
    Ok(Sequence::from_vec(items))
}

/// The line with this ask for the transfer of this number.
pub(crate) fn with_ask(alloc: Global, line: Line, n: u64, ask: Ask) -> Result<Line, AllocError>
    ensures { IfOk result (λ l. l ≡ map (with_ask n ask) line) }
{
    let items = line
        .into_vec()
        .into_iter()
        .map(|item| with_item_asked(item, n, ask))
        .collect(alloc)?;
    Ok(Sequence::from_vec(items))
}

/// Whether a blank is the first.
pub(crate) fn leads_blank(line: &[Item]) -> bool
    ensures { result ≡ leads_blank line.now }
{
    match line {
        [] => false,
        [first, ..] => first.is_blank(),
    }
}

/// The line with another item in the place of the first that waits.
#[tactic(auto, using(crate::proofs::LineWalks::first_is_replaced, crate::proofs::LineWalks::none_is_replaced))]
pub(crate) fn with_first(line: Line, item: Item) -> Line
    ensures { result ≡ with_first item line }
{
    let Some(place) = waiting_place(line.as_slice()) else {
        return line;
    };
    let mut items = line.into_vec();
    items[place] = item;
    Sequence::from_vec(items)
}

/// The first that waits, if there is one, and the line with a stand-in in its place.
#[tactic(auto, using(crate::proofs::LineWalks::first_is_taken, crate::proofs::LineWalks::none_is_taken))]
pub(crate) fn take_first(alloc: Global, line: Line) -> (Line, Option<Item>)
    ensures item { result.1 ≡ first_waiting line }
    ensures line { (item : Item) → with_first item result.0 ≡ with_first item line }
    ensures none { IfNone result.1 (result.0 ≡ line) }
{
    let Some(place) = waiting_place(line.as_slice()) else {
        return (line, None);
    };
    let mut items = line.into_vec();
    let stand_in = stand_in(alloc, &items[place]);
    let item = mem::replace(&mut items[place], stand_in);
    (Sequence::from_vec(items), Some(item))
}

/// A waiting transfer without bytes or answers, to stand in another's place for a while.
fn stand_in(alloc: Global, item: &Item) -> Item
    ensures { is_waiting result ≡ true }
{
    let request = Request {
        ep: item.request.ep,
        kind: item.request.kind,
        flags: item.request.flags,
        timeout: item.request.timeout,
        body: Body::In(0),
    };
    Item::new(alloc, item.n, request, item.round)
}

/// A blank in the transfer's place, where it is withdrawn.
fn blanked_item(mut item: Item) -> Item
    ensures { result ≡ blanked item }
{
    if item.is_withdrawn() {
        item.state = ItemState::Blank;
    }
    item
}

/// The transfer with this ask, where it has this number.
fn with_item_asked(mut item: Item, n: u64, ask: Ask) -> Item
    ensures { result ≡ with_ask n ask item }
{
    if item.n == n {
        item.ask = Some(ask);
    }
    item
}
