//! The rule of each number of each name.

ghost use Rattle.std.specs.Prelude.{◌≡◌, ℕ, ◌≤◌, ◌==◌, ◌&&◌, length, slice_index_or, IfOk, if◌then◌else◌};
ghost use Rattle.usb_model.specs.World.Plans.{noted, once_only};
ghost use Rattle.reference.specs.RuleBooks.{book_at, rule_at};

use std::alloc::{AllocError, Global};
use std::marker::Model;
use std::mem;
use usb_model::{Entry, Name, Reply, Rule, Sequence, StatusSet};

/// The rules of a name's numbers, in order; contracts read them by `rule_at`.
type Rules = Sequence<Rule>;

/// The rules of each name, 0 to 63; contracts read them by `book_at`.
#[derive(Drop)]
pub struct RuleBook {
    rules: Vec<Rules>,
}

impl Model for RuleBook {
    ghost use Rattle.std.specs.Prelude.{◌≡◌, List, length};
    ghost use Rattle.usb_model.specs.declared.verdict.Rule.{Rule};

    ghost Value = { List (List Rule) };

    ghost view = { λ b. b.rules.items };

    ghost invariant = { λ b. length b.rules.items ≡ 64 };
}

/// The rules, with as many in front as a number has below it.
fn filled(mut rules: Rules, at: usize) -> Result<Rules, AllocError>
    ensures long { IfOk result (λ v. at ≤ length v) }
    ensures same { IfOk result (λ v. (k : ℕ) → rule_at v k ≡ rule_at rules k) }
{
    for _ in rules.len()..at {
        rules.push(Rule::once_only())?;
    }
    Ok(rules)
}

/// The rules, with this one for a number.
fn with_rule(rules: Rules, at: usize, rule: Rule) -> Result<Rules, AllocError>
    ensures { IfOk result (λ v. (k : ℕ) → rule_at v k ≡ (if at == k then rule else rule_at rules k)) }
{
    let mut items = filled(rules, at)?.into_vec();
    if at < items.len() {
        items[at] = rule;
    } else {
        items.push(rule)?;
    }
    Ok(Sequence::from_vec(items))
}

impl RuleBook {
    /// No number was given.
    pub fn new(alloc: Global) -> Result<RuleBook, AllocError>
        ensures { IfOk result (λ b. (h n : ℕ) → book_at b h n ≡ once_only) }
    {
        let mut rules = Vec::new(alloc);
        for _ in 0..64_usize {
            rules.push(Sequence::new(alloc))?;
        }
        Ok(RuleBook { rules })
    }

    /// The rule of a number.
    pub fn get(&self, h: Name, n: u64) -> Rule
        ensures { result ≡ book_at self.now h n }
    {
        match self.rules[usize::from(h.number())]
            .as_slice()
            .get(n as usize)
        {
            Some(rule) => *rule,
            None => Rule::once_only(),
        }
    }

    /// Notes the rule of a number.
    fn note(&mut self, alloc: Global, h: Name, n: u64, rule: Rule) -> Result<(), AllocError>
        ensures { IfOk result (λ _. (g k : ℕ) → book_at self.new g k ≡ (if (h == g) && (n == k) then rule else book_at self.old g k)) }
    {
        let at = usize::from(h.number());
        let rules = mem::replace(&mut self.rules[at], Sequence::new(alloc));
        self.rules[at] = with_rule(rules, n as usize, rule)?;
        Ok(())
    }

    /// Notes the rule of the number that an entry gives, if it gives one.
    pub fn note_entry(&mut self, alloc: Global, entry: &Entry, rule: Rule) -> Result<(), AllocError>
        ensures { IfOk result (λ _. (g k : ℕ) → book_at self.new g k ≡ noted (λ g k. book_at self.old g k) entry.now rule g k) }
    {
        let Some(h) = entry.owner else {
            return Ok(());
        };
        match entry.reply {
            Reply::Number(n) => self.note(alloc, h, n, rule),
            _ => Ok(()),
        }
    }
}
