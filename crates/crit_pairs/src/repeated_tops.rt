//! The tops of peaks at the root, which inner rules with equal left sides have in common.
ghost use Rattle.std.specs.Prelude.{◌≡◌, ℕ, List, [], IfSome, OnOk, slice_get};
ghost use Rattle.trs_defs.specs.System.{RewriteRule};
ghost use Rattle.rewrite_core.specs.PlacedPeak.{PlacedPeak};
ghost use Rattle.crit_pairs.specs.EqualLefts.{left_side};
ghost use Rattle.crit_pairs.specs.MadePairs.{spot};
ghost use Rattle.crit_pairs.specs.Repeated.{IsAdded};
ghost use Rattle.crit_pairs.specs.RepeatedTops.{IsTopAt, AreTops};
ghost use Rattle.crit_pairs.specs.WholeSides.{IsRightOf};

use crate::repeated::{AddedPeak, MOST_NOTED};
use crate::whole_sides::WholeSide;
use std::alloc::Global;
use trs_core::OutOfMemory;

/// The top and the right result that peaks of inner rules with one left side have.
#[derive(Clone, Copy)]
pub(crate) struct RepeatedTop {
    /// The number of one of these rules.
    pub first: usize,
    /// How many nodes both have.
    pub nodes: u64,
    /// The number of one of these peaks in the list. `None` where it was only counted.
    pub number: Option<usize>,
}

/// Those of the peaks at one position, as far as they are noted.
#[derive(Drop)]
pub(crate) struct RepeatedTops {
    pub noted: Vec<RepeatedTop>,
}

impl RepeatedTops {
    /// None is noted. It takes no memory.
    pub fn new(alloc: Global) -> RepeatedTops
        ensures { (rules : List RewriteRule) (j : ℕ) (p : List ℕ) (list : List PlacedPeak) →
            AreTops rules j p list result.noted.items }
    {
        RepeatedTops {
            noted: Vec::new(alloc),
        }
    }

    /// What is noted of a rule with the left side of the first one.
    pub fn of(&self, first: Option<usize>) -> Option<RepeatedTop>
        ensures { IfSome result (λ top. (rules : List RewriteRule) (i j : ℕ) (p : List ℕ)
            (list : List PlacedPeak) → AreTops rules j p list self.now.noted.items
            → IfSome first (λ k. left_side (slice_get rules k) ≡ left_side (slice_get rules i))
            → IsTopAt rules j p (left_side (slice_get rules i)) list top) }
    {
        let Some(first) = first else {
            return None;
        };
        for found in &self.noted {
            if found.first == first {
                return Some(*found);
            }
        }
        None
    }

    /// Notes the peak at the root of a rule with the left side of the first one, and with this right
    /// side, if there is room.
    pub fn note(
        &mut self,
        first: Option<usize>,
        side: &WholeSide,
        added: AddedPeak,
    ) -> Result<(), OutOfMemory>
        ensures { OnOk result ((rules : List RewriteRule) (i j : ℕ) (p : List ℕ)
            (list : List PlacedPeak) → AreTops rules j p list self.old.noted.items
            → IfSome first (λ k. left_side (slice_get rules k) ≡ left_side (slice_get rules i))
            → p ≡ [] → IsRightOf rules i side.now
            → IsAdded rules (spot j p i) list added
            → AreTops rules j p list self.new.noted.items) }
    {
        let Some(first) = first else {
            return Ok(());
        };
        if self.noted.len() >= MOST_NOTED {
            return Ok(());
        }
        self.noted.push(RepeatedTop {
            first,
            nodes: added.nodes.saturating_sub(side.size),
            number: added.number,
        })?;
        Ok(())
    }
}
