//! The strategy fork.
use crate::found::{closing, fork_step};
use crate::peak_search::SearchOnPeaks;
use crate::{Findings, Strategy};
use assign_search::{Search, Stop};
use conf_find::{ForkFound, fork_among, found_forks_apply};
use loop_find::{PeakPairs, PooledTop};
use rewrite_core::Peak;
use std::alloc::Global;
use trs_core::{OutOfMemory, Trs, systems_are_valid};

/// The search for a fork to two terms that never meet, as their caps do not unify.
pub(crate) struct Forks;

impl SearchOnPeaks for Forks {
    ghost use Rattle.std.specs.Prelude.{[]};
    ghost use Rattle.conf_find.specs.Fork.{fork_of};
    ghost use Rattle.cert_step.specs.ProofProblem.{fork};
    ghost use Rattle.strategies.specs.declared.strategy.Strategy.{Strategy};
    ghost use Rattle.strategies.specs.Conditions.{fork_step, fork_is_not_there};
    ghost use Rattle.strategies.specs.Rows.{peaks_pass_limit};
    ghost use Rattle.strategies.specs.Runs.{found};

    type Evidence = ForkFound;

    ghost strategy = { Strategy.Fork };

    ghost problem = { fork };

    ghost answer = { λ it. found (fork_step (fork_of it)) [] };

    fn find<P: Stop>(
        alloc: Global,
        trs: &Trs,
        peaks: &[Peak<PooledTop>],
        pairs: &PeakPairs,
        _budget: u64,
        stop: &mut P,
    ) -> Result<Search<ForkFound>, OutOfMemory> {
        systems_are_valid(trs);
        found_forks_apply();
        fork_among(alloc, trs, peaks, pairs, stop)
    }

    fn findings(alloc: Global, found: ForkFound) -> Result<Findings, OutOfMemory> {
        Ok(closing(alloc, fork_step(found)))
    }

    ghost fails_past_limit = { λ _ _ fault passed.
        fork_is_not_there (peaks_pass_limit fault passed) };
}
