//! What is said of a command line that asks for what can't be done, and its status; and the version.

ghost use Rattle.std.specs.Prelude.{◌≡◌};

use crate::statuses::{BAD_WORDS, FAILED, print_all};
use std::io::Write;

/// What `--version` prints.
const VERSION: &[u8] = b"usbtrace 0.1.0\n";

/// Prints the version.
pub fn print_version<W: Write, E: Write>(out: &mut W, err: &mut E) -> u8 {
    match print_all(VERSION, out, err) {
        Ok(()) => 0,
        Err(failed) => failed,
    }
}

/// Says that a file can't be read.
pub fn refuse_file<E: Write>(file: &str, err: &mut E) -> u8
    ensures { result ≡ 1 }
{
    let _ = write!(err, "usbtrace: {file} can't be read\n");
    FAILED
}

/// Says that there are too many files.
pub fn refuse_files<E: Write>(err: &mut E) -> u8
    ensures { result ≡ 2 }
{
    let _ = err.write_all(b"usbtrace: only `test` takes more than one file\n");
    BAD_WORDS
}

/// Says what stands behind `--color`.
pub fn refuse_colours<E: Write>(err: &mut E) -> u8
    ensures { result ≡ 2 }
{
    let _ = err.write_all(b"usbtrace: --color: say once, behind it: always, never or auto\n");
    BAD_WORDS
}

/// Says what stands behind `--junit`, and with it.
pub fn refuse_junit<E: Write>(err: &mut E) -> u8
    ensures { result ≡ 2 }
{
    let _ = err.write_all(
        b"usbtrace: --junit: say once into which file, behind it, and which files are tested\n",
    );
    BAD_WORDS
}

/// Says what stands behind `--html`, and with it.
pub fn refuse_html<E: Write>(err: &mut E) -> u8
    ensures { result ≡ 2 }
{
    let _ = err.write_all(
        b"usbtrace: --html: say once into which folder, behind it, and which files are tested\n",
    );
    BAD_WORDS
}

/// Says what stands with `--update`.
pub fn refuse_update<E: Write>(err: &mut E) -> u8
    ensures { result ≡ 2 }
{
    let _ = err.write_all(
        b"usbtrace: --update: say which files are rewritten, without --junit and --html\n",
    );
    BAD_WORDS
}
