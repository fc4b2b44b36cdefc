//! Sets, as names between plus signs.

ghost use Rattle.std.specs.Prelude.{◌≡◌, option_map};
ghost use Rattle.trace_scenario.specs.Names.{union_of};

use bitflags::Flags;

/// The set of the names of a word, between its plus signs; None where one is no name.
pub(crate) fn union_of<F: Flags>(word: &str) -> Option<F>
    requires { F.exact }
    ensures { option_map F.set_of result ≡ union_of F.table word.now }
{
    let mut set = F::empty();
    for name in word.split('+') {
        set.insert(F::from_name(name)?);
    }
    Some(set)
}
