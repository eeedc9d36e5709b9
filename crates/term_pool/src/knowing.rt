ghost use Rattle.std.specs.Prelude.{◌≡◌, ◌<◌, ◌↔◌, ℕ, List, Some, length, slice_get, IsTrue, IfOk, IfSome, OnOk};
ghost use Rattle.trs_defs.specs.Substitution.{IsInstance};
ghost use Rattle.trs_defs.specs.Position.{subterm_at};
ghost use Rattle.trs_defs.specs.System.{RewriteRule};
ghost use Rattle.trs_defs.specs.Path.{StepsAt};
ghost use Rattle.term_pool.specs.Pooled.{tree_at};
ghost use Rattle.term_pool.specs.Redex.{HasRedex};
ghost use Rattle.term_pool.specs.Known.{IsKnown, IsContractumAt};

use crate::known::Known;
use crate::{PathStep, Pool, RulesByRoot};
use std::alloc::Global;
use trs_core::{OutOfMemory, Rule, Term, Trs};

/// Terms with fewer nodes are looked at again, which costs less than what is known of them would.
const MANY_NODES: u32 = 64;

/// Of rules that lead through fewer symbols, no contracta are noted, for the same reason.
const DEEP: u32 = 8;

impl Pool {
    /// Whether the id's term is known to have no redex.
    pub(crate) fn is_passed(&self, by_root: &RulesByRoot, id: u32, known: &Known) -> bool
        requires there { id < length self.now }
        requires known { IsKnown by_root.now.rules self.now known.now }
        ensures { IsTrue result → HasRedex by_root.now.rules (tree_at self.now id) → ⊥ }
    {
        self.measure(id).size >= MANY_NODES && known.normal.contains(&id)
    }

    /// Notes that the id's term has no redex.
    pub(crate) fn pass(
        &self,
        by_root: &RulesByRoot,
        id: u32,
        known: &mut Known,
    ) -> Result<(), OutOfMemory>
        requires there { id < length self.now }
        requires normal { HasRedex by_root.now.rules (tree_at self.now id) → ⊥ }
        requires known { IsKnown by_root.now.rules self.now known.old }
        ensures { OnOk result (IsKnown by_root.now.rules self.now known.new) }
    {
        if self.measure(id).size >= MANY_NODES {
            known.normal.insert(id)?;
        }
        Ok(())
    }

    /// Whether the id's term is an instance of the left side of rule `k`. A large term is matched
    /// with a deep left side only where it has as many nodes, and is not known to be such a redex.
    pub(crate) fn is_redex_by(
        &self,
        alloc: Global,
        by_root: &RulesByRoot,
        rule: &Rule,
        k: u32,
        id: u32,
        known: &mut Known,
    ) -> Result<bool, OutOfMemory>
        requires there { id < length self.now }
        requires rule { slice_get by_root.now.rules k ≡ Some rule.now }
        requires known { IsKnown by_root.now.rules self.now known.old }
        ensures redex { IfOk result (λ yes.
            IsTrue yes ↔ IsInstance rule.now.left (tree_at self.now id)) }
        ensures known { OnOk result (IsKnown by_root.now.rules self.now known.new) }
    {
        let size = self.measure(id).size;
        if size < MANY_NODES || !is_deep(&rule.left) {
            return self.is_instance(alloc, rule, id);
        }
        if known.left_size(rule, k)? > size {
            return Ok(false);
        }
        if known.contracta.contains_key(&(id, k)) {
            return Ok(true);
        }
        self.is_instance_of(alloc, &rule.left, id)
    }

    /// The id of the contractum of a step, if it is known.
    pub(crate) fn known_contractum(&self, id: u32, step: &PathStep, known: &Known) -> Option<u32>
        requires there { id < length self.now }
        ensures { (rules : List RewriteRule) → IsKnown rules self.now known.now → IfSome result (
            IsContractumAt rules self.now (tree_at self.now id) step.now) }
    {
        if self.measure(id).size < MANY_NODES || known.contracta.is_empty() {
            return None;
        }
        let Some(part) = self.at(id, step.place.places()) else {
            return None;
        };
        known.contracta.get(&(part, step.rule)).copied()
    }

    /// Notes the contractum of a step by a deep rule, which stands in the reduct where the redex
    /// stood.
    pub(crate) fn note_contractum(
        &self,
        trs: &Trs,
        id: u32,
        step: &PathStep,
        reduct: u32,
        known: &mut Known,
    ) -> Result<(), OutOfMemory>
        requires there { id < length self.now }
        requires reduct { reduct < length self.now }
        ensures { (rules : List RewriteRule) → IsKnown rules self.now known.old
            → StepsAt rules step.now.place step.now.rule (tree_at self.now id)
            (tree_at self.now reduct) → OnOk result (IsKnown rules self.now known.new) }
    {
        if self.measure(id).size < MANY_NODES || !is_by_deep_rule(trs, step.rule) {
            return Ok(());
        }
        let places = step.place.places();
        let Some(part) = self.at(id, places) else {
            return Ok(());
        };
        let key = (part, step.rule);
        if self.measure(part).size < MANY_NODES || known.contracta.contains_key(&key) {
            return Ok(());
        }
        let Some(by) = self.at(reduct, places) else {
            return Ok(());
        };
        known.contracta.insert(key, by)?;
        Ok(())
    }
}

/// Whether a side of the rule of this number is deep.
fn is_by_deep_rule(trs: &Trs, k: u32) -> bool {
    match trs.rules().get(k as usize) {
        None => false,
        Some(rule) => is_deep(&rule.left) || is_deep(&rule.right),
    }
}

/// Whether the first arguments, or the last ones, lead through many symbols.
fn is_deep(t: &Term) -> bool {
    leads_deep(t, false) || leads_deep(t, true)
}

/// Whether the first arguments, or else the last ones, lead through `DEEP` symbols.
fn leads_deep(t: &Term, by_last: bool) -> bool {
    let mut current = t;
    for _ in 0..DEEP {
        let Term::App(_, args) = current else {
            return false;
        };
        let args = args.items.as_slice();
        let next = if by_last { args.last() } else { args.first() };
        match next {
            None => return false,
            Some(arg) => current = arg,
        }
    }
    true
}
