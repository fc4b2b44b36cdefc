//! Parts of texts: around a shorter text in one, and behind a first item.

ghost use Rattle.std.specs.Prelude.{◌≡◌, drop};
ghost use Rattle.trace_test.specs.Parts.{lent_parts, parts_around};

use memchr::memmem;

/// What stands in front of the first such text in another, and behind it; None where there is none in it.
#[tactic(auto, using(crate::proofs::Searches::none_found))]
pub(crate) fn parts_around<'a>(middle: &[u8], text: &'a [u8]) -> Option<(&'a [u8], &'a [u8])>
    ensures { lent_parts result ≡ parts_around middle.now text.now }
{
    let at = memmem::find(text, middle)?;
    Some((&text[..at], &text[at + middle.len()..]))
}

/// Some items without the first.
pub(crate) fn past_first<T>(items: &[T]) -> &[T]
    ensures { result.now ≡ drop 1 items.now }
{
    match items {
        [_, rest @ ..] => rest,
        [] => items,
    }
}
