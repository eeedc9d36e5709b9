//! The strategy newman.
use crate::peak_search::SearchOnPeaks;
use crate::{Findings, Strategy};
use assign_search::{Search, Stop};
use cert_step::{Join, Problem, Step};
use conf_find::{found_joins_join, newman_among};
use loop_find::{PeakPairs, PooledTop};
use rewrite_core::Peak;
use std::alloc::Global;
use trs_core::{OutOfMemory, Trs, systems_are_valid};

/// The search for joins of the critical peaks. That the system terminates is left to show.
pub(crate) struct Joins;

impl SearchOnPeaks for Joins {
    ghost use Rattle.std.specs.Prelude.{[], ◌∷◌};
    ghost use Rattle.cert_step.specs.ProofProblem.{cr_newman, sn};
    ghost use Rattle.cert_step.specs.ProofStep.{newman};
    ghost use Rattle.strategies.specs.declared.strategy.Strategy.{Strategy};
    ghost use Rattle.strategies.specs.Conditions.{newman_is_not_there};
    ghost use Rattle.strategies.specs.Rows.{peaks_pass_limit};
    ghost use Rattle.strategies.specs.Runs.{found};

    type Evidence = Vec<Join>;

    ghost strategy = { Strategy.Newman };

    ghost problem = { cr_newman };

    ghost answer = { λ it. found (newman it.items) (sn ∷ []) };

    fn find<P: Stop>(
        alloc: Global,
        trs: &Trs,
        peaks: &[Peak<PooledTop>],
        pairs: &PeakPairs,
        _budget: u64,
        stop: &mut P,
    ) -> Result<Search<Vec<Join>>, OutOfMemory> {
        systems_are_valid(trs);
        found_joins_join();
        newman_among(alloc, trs, peaks, pairs, stop)
    }

    fn findings(alloc: Global, found: Vec<Join>) -> Result<Findings, OutOfMemory> {
        let mut left = Vec::new(alloc);
        left.push(Problem::Sn)?;
        Ok(Findings::Found(Step::Newman(found), left))
    }

    ghost fails_past_limit = { λ _ _ fault passed.
        newman_is_not_there (peaks_pass_limit fault passed) };
}
