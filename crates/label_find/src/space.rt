//! The search for ranks of rules, with a constraint for each peak.
ghost use Rattle.std.specs.Prelude.{◌<◌, ◌^◌, All, length};
ghost use Rattle.label_find.specs.ConstraintPuzzle.{KeepsRules, label_puzzle};
ghost use Rattle.label_find.specs.LabelLawful.{label_lawful};

use crate::constraint::PeakConstraint;
use crate::side_rules::SideRules;
use assign_search::{OutOfMemory, Space};
use std::alloc::Global;

/// How many ranks there are.
const RANKS: u32 = 4;

/// One slot for each rule, and one constraint for each peak. Peaks with equal sides share what is
/// kept of these.
#[derive(Drop)]
pub(crate) struct LabelSpace {
    pub(crate) rules: u32,
    pub(crate) sides: Vec<SideRules>,
    pub(crate) peaks: Vec<PeakConstraint>,
    pub(crate) ghost keep: { All (KeepsRules rules sides.items) peaks.items },
    pub(crate) ghost few_rules: { rules < 2 ^ 32 },
    pub(crate) ghost few: { length peaks.items < 2 ^ 32 },
}

impl Space for LabelSpace {
    ghost puzzle = { λ x. label_puzzle x.rules x.sides.items x.peaks.items };

    ghost lawful = { λ x. label_lawful x.rules x.sides.items x.peaks.items x.keep };

    fn slots(&self) -> u32 {
        self.rules
    }

    fn domain(&self, _slot: u32) -> u32 {
        RANKS
    }

    fn constraints(&self) -> u32 {
        self.peaks.len() as u32
    }

    fn uses(&self, c: u32, slot: u32) -> bool {
        self.peaks[c as usize].uses(&self.sides, slot)
    }

    fn reach(&self, c: u32) -> u32 {
        self.peaks[c as usize].end(&self.sides)
    }

    fn holds(&self, _alloc: Global, c: u32, values: &[u32]) -> Result<bool, OutOfMemory> {
        Ok(self.peaks[c as usize].is_met(&self.sides, values))
    }
}
