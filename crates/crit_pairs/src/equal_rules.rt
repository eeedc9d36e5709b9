//! Rules that equal one before them.
ghost use Rattle.std.specs.Prelude.{◌≡◌, ◌<◌, ◌≤◌, [], IsTrue, Some, IfOk, OnOk, length, slice_get};
ghost use Rattle.crit_pairs.specs.EqualRules.{NameEqual};

use crate::skeleton::mix;
use std::alloc::Global;
use std::collections::HashMap;
use trs_core::{OutOfMemory, Rule, Term};

/// For each rule one that equals it: the first one, but where two rules have one hash.
#[derive(Drop)]
pub(crate) struct EqualRules {
    pub firsts: Vec<usize>,
    /// The first rule with each hash.
    by_hash: HashMap<u64, usize>,
    /// Those that others equal are among so many rules.
    pub shared: usize,
}

impl EqualRules {
    /// Those of no rules. It takes no memory.
    pub fn new(alloc: Global) -> EqualRules
        ensures { result.firsts.items ≡ [] }
    {
        EqualRules {
            firsts: Vec::new(alloc),
            by_hash: HashMap::new(alloc),
            shared: 0,
        }
    }

    /// Adds the rules behind the first ones, which are there already.
    pub fn add(&mut self, rules: &[Rule]) -> Result<(), OutOfMemory>
        requires equal { NameEqual rules.now self.old.firsts.items }
        requires within { length self.old.firsts.items ≤ length rules.now }
        ensures equal { OnOk result (NameEqual rules.now self.new.firsts.items) }
        ensures numbered { OnOk result (length self.new.firsts.items ≡ length rules.now) }
    {
        let known = self.firsts.len();
        for k in known..rules.len() {
            let first = self.first_equal(rules, k)?;
            self.firsts.push(first)?;
        }
        Ok(())
    }

    /// How many pairs of rules are seen to be equal.
    pub fn pairs(&self, alloc: Global) -> Result<u64, OutOfMemory> {
        let mut pairs: u64 = 0;
        let mut before: Vec<u64> = Vec::with_capacity(alloc, self.firsts.len())?;
        for first in &self.firsts {
            before.push(0)?;
            if let Some(equal) = before.get_mut(*first) {
                pairs = pairs.saturating_add(*equal);
                *equal = equal.saturating_add(1);
            }
        }
        Ok(pairs)
    }

    /// The first rule that equals rule `k`, or this one.
    fn first_equal(&mut self, rules: &[Rule], k: usize) -> Result<usize, OutOfMemory>
        requires { k < length rules.now }
        ensures equal { IfOk result (λ first. slice_get rules.now first ≡ slice_get rules.now k) }
        ensures kept { self.new.firsts.items ≡ self.old.firsts.items }
    {
        let rule = &rules[k];
        let hash = hash_of(rule);
        let Some(first) = self.by_hash.get(&hash).copied() else {
            self.by_hash.insert(hash, k)?;
            return Ok(k);
        };
        if !is_rule(rules, first, rule) {
            return Ok(k);
        }
        self.shared = self.shared.max(first.saturating_add(1));
        Ok(first)
    }
}

/// Whether some of the rules are seen to be equal.
pub(crate) fn are_some_equal(alloc: Global, rules: &[Rule]) -> Result<bool, OutOfMemory> {
    let mut equal = EqualRules::new(alloc);
    equal.add(rules)?;
    Ok(equal.shared > 0)
}

/// Whether rule `k` is there, and equals this rule.
fn is_rule(rules: &[Rule], k: usize, rule: &Rule) -> bool
    ensures { IsTrue result → slice_get rules.now k ≡ Some rule.now }
{
    match rules.get(k) {
        Some(other) => are_same(other, rule),
        None => false,
    }
}

/// Whether both are the same rule.
fn are_same(rule: &Rule, other: &Rule) -> bool
    ensures { IsTrue result → rule.now ≡ other.now }
{
    if !rule.left.same(&other.left) {
        return false;
    }
    rule.right.same(&other.right)
}

/// A number that is mostly another one for another rule.
fn hash_of(rule: &Rule) -> u64 {
    hash_after(hash_after(0, &rule.left), &rule.right)
}

/// The number for a term, behind others that have this one.
pub(crate) fn hash_after(before: u64, t: &Term) -> u64 {
    match t {
        Term::Var(v) => mix(before, u64::from(*v) << 1),
        Term::App(f, args) => {
            let mut hash = mix(before, (u64::from(*f) << 1) | 1);
            for arg in &args.items {
                hash = hash_after(hash, arg);
            }
            hash
        }
    }
}
