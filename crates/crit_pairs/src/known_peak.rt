//! What is known of the peaks of inner rules with an outer rule at one position.
ghost use Rattle.std.specs.Prelude.{◌≡◌, ◌<◌, ℕ, List, OnOk, length, slice_get};
ghost use Rattle.trs_defs.specs.Tree.{Tree};
ghost use Rattle.trs_defs.specs.System.{RewriteRule};
ghost use Rattle.crit_pairs.specs.EqualRules.{NameEqual};
ghost use Rattle.crit_pairs.specs.KnownPeaks.{Knows, KnowsEach};

use crate::equal_rules::EqualRules;
use crate::table::PeakPair;
use std::alloc::Global;
use trs_core::OutOfMemory;

/// What is known of the peaks that equal inner rules have.
#[derive(Clone, Copy)]
pub(crate) enum KnownPeak {
    Unknown,
    /// The rules do not overlap there.
    Absent,
    /// The two results, and the number of nodes.
    Made(PeakPair, u64),
}

/// What is known of equal inner rules, by the number of the first of them.
#[derive(Drop)]
pub(crate) struct KnownPeaks {
    pub by_first: Vec<KnownPeak>,
}

impl KnownPeaks {
    /// Nothing is known. It takes no memory.
    pub fn new(alloc: Global) -> KnownPeaks
        ensures { (rules : List RewriteRule) (j : ℕ) (p : List ℕ) (pool : List Tree) →
            KnowsEach rules j p pool result.by_first.items }
    {
        KnownPeaks {
            by_first: Vec::new(alloc),
        }
    }

    /// What is known of rule `i`.
    pub fn of(&self, equal: &EqualRules, i: usize) -> KnownPeak
        requires { i < length equal.now.firsts.items }
        ensures { (rules : List RewriteRule) (j : ℕ) (p : List ℕ) (pool : List Tree) →
            NameEqual rules equal.now.firsts.items →
            KnowsEach rules j p pool self.now.by_first.items →
            Knows rules j p (slice_get rules i) pool result }
    {
        let first = equal.firsts[i];
        match self.by_first.get(first) {
            Some(known) => *known,
            None => KnownPeak::Unknown,
        }
    }

    /// Notes what is known of rule `i`, where others equal it.
    pub fn note(
        &mut self,
        equal: &EqualRules,
        i: usize,
        known: KnownPeak,
    ) -> Result<(), OutOfMemory>
        requires { i < length equal.now.firsts.items }
        ensures { OnOk result ((rules : List RewriteRule) (j : ℕ) (p : List ℕ)
            (pool : List Tree) → NameEqual rules equal.now.firsts.items →
            KnowsEach rules j p pool self.old.by_first.items →
            Knows rules j p (slice_get rules i) pool known →
            KnowsEach rules j p pool self.new.by_first.items) }
    {
        let first = equal.firsts[i];
        if equal.shared <= first {
            return Ok(());
        }
        while self.by_first.len() <= first {
            self.by_first.push(KnownPeak::Unknown)?;
        }
        self.by_first[first] = known;
        Ok(())
    }
}
