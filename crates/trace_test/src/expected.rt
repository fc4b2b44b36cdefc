//! Lines that expect something, and what they find.

ghost use Rattle.std.specs.Prelude.{◌≡◌};
ghost use Rattle.std.specs.Option.{option_copied};
ghost use Rattle.usb_scripttext.specs.Prefix.{behind};
ghost use Rattle.trace_test.specs.Expected.{beginning_of, expected_any_of, expected_left_of, expected_of, fits};

/// What stands behind the front of a text; None where it begins otherwise.
pub(crate) fn behind<'a>(front: &[u8], text: &'a [u8]) -> Option<&'a [u8]>
    ensures { option_copied result ≡ behind front.now text.now }
{
    if text.starts_with(front) {
        Some(&text[front.len()..])
    } else {
        None
    }
}

/// What a line expects, if it does.
pub(crate) fn expected(line: &[u8]) -> Option<&[u8]>
    ensures { option_copied result ≡ expected_of line.now }
{
    behind(b"expect ", line)
}

/// What a line expects to be left, if it does.
pub(crate) fn expected_left(line: &[u8]) -> Option<&[u8]>
    ensures { option_copied result ≡ expected_left_of line.now }
{
    behind(b"expect left ", line)
}

/// What a line expects some entry to be, if it does.
pub(crate) fn expected_any(line: &[u8]) -> Option<&[u8]>
    ensures { option_copied result ≡ expected_any_of line.now }
{
    behind(b"expect any ", line)
}

/// What stands in front of ` ...` at the end of what is wanted; None where that doesn't end so.
fn beginning(wanted: &[u8]) -> Option<&[u8]>
    ensures { option_copied result ≡ beginning_of wanted.now }
{
    if wanted.ends_with(b" ...") {
        Some(&wanted[..wanted.len() - 4])
    } else {
        None
    }
}

/// Whether a text is what is wanted: that itself; or, where ` ...` ends it, what stands in front of that, and no more or a space behind it.
pub(crate) fn fits(wanted: &[u8], text: &[u8]) -> bool
    ensures { result ≡ fits wanted.now text.now }
{
    let Some(beginning) = beginning(wanted) else {
        return wanted == text;
    };
    match behind(beginning, text) {
        Some([]) => true,
        Some([byte, ..]) => *byte == b' ',
        None => false,
    }
}
