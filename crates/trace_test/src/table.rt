//! The macros that are closed, by name.

ghost use Rattle.std.specs.Prelude.{◌≡◌, ◌<◌, ◌++◌, ◌∷◌, [], IfOk, option_and_then, option_copied, vec_capacity, vec_len};
ghost use Rattle.trace_test.specs.Macros.{body_of, line_count, named};

use std::alloc::{AllocError, Global};
use std::collections::HashMap;
use std::marker::Model;

/// How many lines the body of a macro has at most.
const MOST_LINES: usize = 65_536;

/// A macro.
#[derive(Drop)]
pub(crate) struct Macro<'a> {
    /// The number of its first line.
    pub(crate) at: u64,
    /// That line.
    pub(crate) line: &'a [u8],
    /// Its name.
    pub(crate) name: &'a [u8],
    /// Its body, each line of which ends with a line feed.
    pub(crate) body: Vec<u8>,
}

impl<'a> Model for Macro<'a> {
    ghost use Rattle.trace_test.specs.Macros.{Macro as MacroValue};

    ghost Value = { MacroValue };

    ghost view = { λ m. record { at = m.at; line = m.line.now; name = m.name.now; body = m.body.items } };
}

impl<'a> Macro<'a> {
    /// Its body; None where that has too many lines.
    fn body(&self) -> Option<&[u8]>
        ensures { option_copied result ≡ body_of self.now }
    {
        let body = self.body.as_slice();
        (line_count(body) <= MOST_LINES).then_some(body)
    }
}

/// How many lines of a text end.
pub(crate) fn line_count(text: &[u8]) -> usize
    ensures { result ≡ line_count text.now }
{
    text.iter().filter(|byte| **byte == b'\n').count()
}

/// Puts a macro behind others, where there is room for it.
fn put_last<'a>(closed: &mut Vec<Macro<'a>>, one: Macro<'a>)
    requires { vec_len closed.old < vec_capacity closed.old }
    ensures { closed.new.items ≡ closed.old.items ++ one.entry ∷ [] }
{
    // There is room, so that this can't fail.
    let _ = closed.push(one);
}

/// The macros that are closed. Contracts see them all, the latest first; the latest of a name is found in one look.
#[derive(Drop)]
pub(crate) struct Table<'a> {
    /// All of them, in the order in which they were closed.
    closed: Vec<Macro<'a>>,
    /// By its name, where the latest of it stands among them.
    places: HashMap<&'a [u8], usize>,
}

impl<'a> Model for Table<'a> {
    ghost use Rattle.std.specs.Prelude.{List, reverse};
    ghost use Rattle.trace_test.specs.Macros.{Macro as MacroValue};
    ghost use Rattle.trace_test.specs.Table.{IsTable};

    ghost Value = { List MacroValue };

    ghost view = { λ t. reverse t.closed.items };

    ghost invariant = { λ t. IsTable t.closed.items t.places };
}

impl<'a> Table<'a> {
    /// None is closed.
    pub(crate) fn new(alloc: Global) -> Table<'a>
        ensures { result ≡ [] }
    {
        Table {
            closed: Vec::new(alloc),
            places: HashMap::new(alloc),
        }
    }

    /// One more is closed.
    pub(crate) fn put(&mut self, closed: Macro<'a>) -> Result<(), AllocError>
        ensures { IfOk result (λ _. self.new ≡ closed.entry ∷ self.old) }
    {
        self.closed.reserve(1)?;
        self.places.insert(closed.name, self.closed.len())?;
        put_last(&mut self.closed, closed);
        Ok(())
    }

    /// The latest of a name.
    fn named(&self, name: &[u8]) -> Option<&Macro<'a>>
        ensures { option_copied result ≡ named self.now name.now }
    {
        let place = self.places.get(name)?;
        self.closed.get(*place)
    }

    /// The body of the latest of a name; None where there is none, or it has too many lines.
    pub(crate) fn body(&self, name: &[u8]) -> Option<&[u8]>
        ensures { option_copied result ≡ option_and_then body_of (named self.now name.now) }
    {
        self.named(name)?.body()
    }
}
