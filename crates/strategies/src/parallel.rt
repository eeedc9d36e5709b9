//! The strategy parallel.
use crate::found::closing;
use crate::peak_search::SearchOnPeaks;
use crate::{Findings, Strategy};
use assign_search::{Search, Stop};
use cert_step::Step;
use conf_find::{found_steps_close, parallel_among};
use loop_find::{PeakPairs, PooledTop};
use rewrite_core::{PathStep, Peak};
use std::alloc::Global;
use trs_core::{OutOfMemory, Trs, systems_are_valid};

/// The search for parallel steps that close the critical peaks.
pub(crate) struct ParallelSteps;

impl SearchOnPeaks for ParallelSteps {
    ghost use Rattle.std.specs.Prelude.{[]};
    ghost use Rattle.cert_step.specs.closed_pairs.ParallelClosed.{paths_of};
    ghost use Rattle.cert_step.specs.ProofProblem.{cr};
    ghost use Rattle.cert_step.specs.ProofStep.{parallel};
    ghost use Rattle.strategies.specs.declared.strategy.Strategy.{Strategy};
    ghost use Rattle.strategies.specs.Conditions.{parallel_is_not_there};
    ghost use Rattle.strategies.specs.Rows.{peaks_pass_limit};
    ghost use Rattle.strategies.specs.Runs.{found};

    type Evidence = Vec<Vec<PathStep>>;

    ghost strategy = { Strategy.Parallel };

    ghost problem = { cr };

    ghost answer = { λ it. found (parallel (paths_of it.items)) [] };

    fn find<P: Stop>(
        alloc: Global,
        trs: &Trs,
        peaks: &[Peak<PooledTop>],
        pairs: &PeakPairs,
        _budget: u64,
        stop: &mut P,
    ) -> Result<Search<Vec<Vec<PathStep>>>, OutOfMemory> {
        systems_are_valid(trs);
        found_steps_close();
        parallel_among(alloc, trs, peaks, pairs, stop)
    }

    fn findings(alloc: Global, found: Vec<Vec<PathStep>>) -> Result<Findings, OutOfMemory> {
        Ok(closing(alloc, Step::Parallel(found)))
    }

    ghost fails_past_limit = { λ _ _ fault passed.
        parallel_is_not_there (peaks_pass_limit fault passed) };
}
