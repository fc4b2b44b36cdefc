//! What is left of a device's script.

ghost use Rattle.std.specs.Prelude.{◌≡◌, [], drop};

use crate::response::{Response, Script};
use std::alloc::Global;
use std::marker::Model;

/// The answers that a device has yet to give. Contracts see the list of them. Those that were given stay in memory, so that none of the
/// others moves when one is.
#[derive(Debug, Drop)]
pub struct ScriptLeft {
    answers: Vec<Response>,
    given: usize,
}

impl Model for ScriptLeft {
    ghost use Rattle.std.specs.Prelude.{List, drop};
    ghost use Rattle.usb_model.specs.declared.response.Response.{Response};

    ghost Value = { List Response };

    ghost view = { λ s. drop s.given s.answers.items };
}

impl ScriptLeft {
    /// No answer, which takes no memory.
    pub fn new(alloc: Global) -> ScriptLeft
        ensures { result ≡ [] }
    {
        ScriptLeft {
            answers: Vec::new(alloc),
            given: 0,
        }
    }

    /// All answers of a script.
    pub fn all_of(script: Script) -> ScriptLeft
        ensures { result ≡ script }
    {
        ScriptLeft {
            answers: script.into_vec(),
            given: 0,
        }
    }

    /// The answers, in order.
    pub fn as_slice(&self) -> &[Response]
        ensures { result.now ≡ self.now }
    {
        self.answers.get(self.given..).unwrap_or(&[])
    }

    /// The first answer is given, where there is one.
    #[tactic(auto, using(crate::proofs::Scripts::one_given, crate::proofs::Scripts::all_given))]
    pub fn pass_first(&mut self)
        ensures { self.new ≡ drop 1 self.old }
    {
        if self.given < self.answers.len() {
            self.given += 1;
        }
    }
}
