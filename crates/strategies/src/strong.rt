//! The strategy strong.
use crate::found::closing;
use crate::peak_search::SearchOnPeaks;
use crate::{Findings, Strategy};
use assign_search::{Search, Stop};
use cert_step::{Four, Step};
use conf_find::{found_fours_join, strong_among};
use loop_find::{PeakPairs, PooledTop};
use rewrite_core::Peak;
use std::alloc::Global;
use trs_core::{OutOfMemory, Trs, systems_are_valid};

/// The search for joins that close the critical peaks strongly.
pub(crate) struct StrongJoins;

impl SearchOnPeaks for StrongJoins {
    ghost use Rattle.std.specs.Prelude.{[]};
    ghost use Rattle.cert_step.specs.ProofProblem.{cr};
    ghost use Rattle.cert_step.specs.ProofStep.{strong};
    ghost use Rattle.strategies.specs.declared.strategy.Strategy.{Strategy};
    ghost use Rattle.strategies.specs.Conditions.{strong_is_not_there};
    ghost use Rattle.strategies.specs.Rows.{peaks_pass_limit};
    ghost use Rattle.strategies.specs.Runs.{found};

    type Evidence = Vec<Four>;

    ghost strategy = { Strategy.Strong };

    ghost problem = { cr };

    ghost answer = { λ it. found (strong it.items) [] };

    fn find<P: Stop>(
        alloc: Global,
        trs: &Trs,
        peaks: &[Peak<PooledTop>],
        pairs: &PeakPairs,
        _budget: u64,
        stop: &mut P,
    ) -> Result<Search<Vec<Four>>, OutOfMemory> {
        systems_are_valid(trs);
        found_fours_join();
        strong_among(alloc, trs, peaks, pairs, stop)
    }

    fn findings(alloc: Global, found: Vec<Four>) -> Result<Findings, OutOfMemory> {
        Ok(closing(alloc, Step::Strong(found)))
    }

    ghost fails_past_limit = { λ _ _ fault passed.
        strong_is_not_there (peaks_pass_limit fault passed) };
}
