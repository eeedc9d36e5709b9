//! The peaks of equal inner rules at one position.
ghost use Rattle.std.specs.Prelude.{◌≡◌, ℕ, List, IfSome, OnOk, slice_get};
ghost use Rattle.trs_defs.specs.System.{RewriteRule};
ghost use Rattle.rewrite_core.specs.PlacedPeak.{PlacedPeak};
ghost use Rattle.crit_pairs.specs.MadePairs.{spot};
ghost use Rattle.crit_pairs.specs.Repeated.{IsAdded, IsRepeated, AreRepeated};

use std::alloc::Global;
use trs_core::OutOfMemory;

/// The most peaks that are noted at a position. They are looked for one by one.
pub(crate) const MOST_NOTED: usize = 8;

/// A critical peak that was added.
#[derive(Clone, Copy)]
pub(crate) struct AddedPeak {
    /// How many nodes it has.
    pub nodes: u64,
    /// Its number in the list. `None` where it was only counted.
    pub number: Option<usize>,
}

/// A peak that all inner rules have that equal each other.
#[derive(Clone, Copy)]
pub(crate) struct RepeatedPeak {
    /// The number of one of these rules.
    pub first: usize,
    /// The peak of one of these rules.
    pub added: AddedPeak,
}

/// The peaks of equal inner rules at one position, as far as they are noted.
#[derive(Drop)]
pub(crate) struct RepeatedPeaks {
    pub noted: Vec<RepeatedPeak>,
}

impl RepeatedPeaks {
    /// None is noted. It takes no memory.
    pub fn new(alloc: Global) -> RepeatedPeaks
        ensures { (rules : List RewriteRule) (j : ℕ) (p : List ℕ) (list : List PlacedPeak) →
            AreRepeated rules j p list result.noted.items }
    {
        RepeatedPeaks {
            noted: Vec::new(alloc),
        }
    }

    /// The peak that is noted of a rule that equals the first one.
    pub fn of(&self, first: Option<usize>) -> Option<AddedPeak>
        ensures { IfSome result (λ added. (rules : List RewriteRule) (i j : ℕ) (p : List ℕ)
            (list : List PlacedPeak) → AreRepeated rules j p list self.now.noted.items
            → IfSome first (λ k. slice_get rules k ≡ slice_get rules i)
            → IsRepeated rules j p (slice_get rules i) list added) }
    {
        let Some(first) = first else {
            return None;
        };
        for found in &self.noted {
            if found.first == first {
                return Some(found.added);
            }
        }
        None
    }

    /// Notes the peak of a rule that equals the first one, if there is room.
    pub fn note(&mut self, first: Option<usize>, added: AddedPeak) -> Result<(), OutOfMemory>
        ensures { OnOk result ((rules : List RewriteRule) (i j : ℕ) (p : List ℕ)
            (list : List PlacedPeak) → AreRepeated rules j p list self.old.noted.items
            → IfSome first (λ k. slice_get rules k ≡ slice_get rules i)
            → IsAdded rules (spot j p i) list added
            → AreRepeated rules j p list self.new.noted.items) }
    {
        let Some(first) = first else {
            return Ok(());
        };
        if self.noted.len() >= MOST_NOTED {
            return Ok(());
        }
        self.noted.push(RepeatedPeak { first, added })?;
        Ok(())
    }
}
