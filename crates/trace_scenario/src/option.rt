//! The options of a submission.

ghost use Rattle.std.specs.Prelude.{◌≡◌, codes};
ghost use Rattle.std.specs.Option.{option_copied};
ghost use Rattle.std.specs.Result.{result_ok};
ghost use Rattle.usb_model.specs.World.Plans.{once_only};
ghost use Rattle.trace_scenario.specs.Option.{option_value, option_rest, flags_said, timeout_said, rule_said, rule_of, options_of};
ghost use Rattle.usb_scripttext.specs.Words.{words_of};

use crate::names::union_of;
use bitflags::Flags as _;
use usb_model::{Flags, Rule, StatusSet};
use usb_scripttext::number::{decimal_u32, decimal_u64};
use usb_scripttext::{Expected, behind};

/// What the options of a submission say.
#[derive(Clone, Copy)]
pub struct Options {
    pub flags: Flags,
    pub timeout: u32,
    pub rule: Rule,
}

impl Options {
    /// The options of some words, each at most once, in the order `flags=`, `timeout=`, `then=`.
    #[tactic(auto, unfolding(crate::specs::Option::options_of))]
    pub fn read(words: &[&str]) -> Result<Options, Expected>
        ensures { result_ok result ≡ options_of (words_of words.now) }
    {
        let mut words = OptionWords { words };
        let options = Options {
            flags: words.flags()?,
            timeout: words.timeout()?,
            rule: words.rule()?,
        };
        if !words.words.is_empty() {
            return Err(Expected::Option);
        }
        Ok(options)
    }
}

/// The words of options that are still to be read.
#[derive(Drop)]
struct OptionWords<'a> {
    words: &'a [&'a str],
}

impl<'a> OptionWords<'a> {
    /// Takes the next word, where it begins so, and gives what is behind.
    fn take(&mut self, begin: &str) -> Option<&'a str>
        ensures value { option_copied result ≡ option_value begin.now (words_of self.old.words.now) }
        ensures rest { words_of self.new.words.now ≡ option_rest begin.now (words_of self.old.words.now) }
    {
        let [first, rest @ ..] = self.words else {
            return None;
        };
        let value = behind(begin, first)?;
        self.words = rest;
        Some(value)
    }

    /// The flags; none where they aren't said.
    fn flags(&mut self) -> Result<Flags, Expected>
        ensures value { result_ok result ≡ flags_said (words_of self.old.words.now) }
        ensures rest { words_of self.new.words.now ≡ option_rest (codes "flags=") (words_of self.old.words.now) }
    {
        match self.take("flags=") {
            Some(names) => union_of(names).ok_or(Expected::Flags),
            None => Ok(Flags::empty()),
        }
    }

    /// The timeout; 0 where it isn't said.
    fn timeout(&mut self) -> Result<u32, Expected>
        ensures value { result_ok result ≡ timeout_said (words_of self.old.words.now) }
        ensures rest { words_of self.new.words.now ≡ option_rest (codes "timeout=") (words_of self.old.words.now) }
    {
        match self.take("timeout=") {
            Some(word) => decimal_u32(word).ok_or(Expected::Timeout),
            None => Ok(0),
        }
    }

    /// The rule of the callback; that of one that stops where it isn't said.
    fn rule(&mut self) -> Result<Rule, Expected>
        ensures value { result_ok result ≡ rule_said (words_of self.old.words.now) }
        ensures rest { words_of self.new.words.now ≡ option_rest (codes "then=") (words_of self.old.words.now) }
    {
        match self.take("then=") {
            Some(word) => rule_of(word).ok_or(Expected::Rule),
            None => Ok(Rule::once_only()),
        }
    }
}

/// The rule of a word.
#[tactic(auto, unfolding(crate::specs::Option::rule_of))]
fn rule_of(word: &str) -> Option<Rule>
    ensures { result ≡ rule_of word.now }
{
    if word == "stop" {
        return Some(Rule::once_only());
    }
    let (names, rounds) = behind("again:", word)?.split_once(':')?;
    Some(Rule::Again {
        on: union_of(names)?,
        rounds: decimal_u64(rounds)?,
    })
}
