//! The strategy label.
use crate::found::closing;
use crate::peak_search::SearchOnPeaks;
use crate::{Findings, Strategy};
use assign_search::{Search, Stop};
use cert_step::Step;
use conf_find::{Labelled, found_labels_apply, label_among};
use loop_find::{PeakPairs, PooledTop};
use rewrite_core::Peak;
use std::alloc::Global;
use trs_core::{OutOfMemory, Trs};

/// The search for ranks of rules by which the critical peaks are decreasing.
pub(crate) struct Ranks;

impl SearchOnPeaks for Ranks {
    ghost use Rattle.std.specs.Prelude.{[]};
    ghost use Rattle.cert_step.specs.ProofProblem.{cr};
    ghost use Rattle.cert_step.specs.ProofStep.{label};
    ghost use Rattle.strategies.specs.declared.strategy.Strategy.{Strategy};
    ghost use Rattle.strategies.specs.Conditions.{label_is_not_there};
    ghost use Rattle.strategies.specs.Rows.{peaks_pass_limit};
    ghost use Rattle.strategies.specs.Runs.{found};

    type Evidence = Labelled;

    ghost strategy = { Strategy.Label };

    ghost problem = { cr };

    ghost answer = { λ it. found (label it.ranks.items it.joins.items) [] };

    fn find<P: Stop>(
        alloc: Global,
        trs: &Trs,
        peaks: &[Peak<PooledTop>],
        pairs: &PeakPairs,
        budget: u64,
        stop: &mut P,
    ) -> Result<Search<Labelled>, OutOfMemory> {
        found_labels_apply();
        label_among(alloc, trs, peaks, pairs, budget, stop)
    }

    fn findings(alloc: Global, found: Labelled) -> Result<Findings, OutOfMemory> {
        let step = Step::Label {
            ranks: found.ranks,
            joins: found.joins,
        };
        Ok(closing(alloc, step))
    }

    ghost fails_past_limit = { λ _ _ fault passed.
        label_is_not_there (peaks_pass_limit fault passed) };
}
