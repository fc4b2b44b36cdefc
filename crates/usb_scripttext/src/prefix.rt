//! Words that begin as they have to.

ghost use Rattle.std.specs.Prelude.{◌≡◌};
ghost use Rattle.std.specs.Option.{option_copied};
ghost use Rattle.usb_scripttext.specs.Prefix.{behind};

/// What stands behind the beginning of a word; None where it begins otherwise.
pub fn behind<'a>(begin: &str, word: &'a str) -> Option<&'a str>
    ensures { option_copied result ≡ behind begin.now word.entry.now }
{
    word.strip_prefix(begin)
}
