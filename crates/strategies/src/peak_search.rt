//! The strategies that close critical peaks, or find a fork among them.
ghost use Rattle.std.specs.Prelude.{◌≡◌, ◌<◌, Ok, IfOk};
ghost use Rattle.assign_search.specs.Continues.{Continues};
ghost use Rattle.loop_find.specs.crit_pairs.PeakList.{ListsPeaks};
ghost use Rattle.loop_find.specs.crit_pairs.PeakPairs.{HoldPairsOf};
ghost use Rattle.strategies.specs.Endings.{IsAnswer, IsSearchFor};
ghost use Rattle.strategies.specs.Tables.{AreKnownPeaks};
ghost use Rattle.strategies.specs.Truth.{found_of, IsTrueFound};

use crate::Findings;
use crate::peaks::KnownPeaks;
use crate::searched::Searched;
use assign_search::{Search, Stop};
use loop_find::{PeakPairs, PooledTop};
use rewrite_core::Peak;
use std::alloc::Global;
use trs_core::{OutOfMemory, Trs};

/// A search for a step on critical peaks.
pub(crate) trait SearchOnPeaks {
    ghost use Rattle.std.specs.Prelude.{ℕ, Err};
    ghost use Rattle.trs_defs.specs.System.{System};
    ghost use Rattle.loop_find.specs.crit_pairs.declared.faults.PeakFault.{PeakFault};
    ghost use Rattle.cert_step.specs.ProofProblem.{ProofProblem};
    ghost use Rattle.strategies.specs.declared.failure.Failure.{Failure};
    ghost use Rattle.strategies.specs.declared.strategy.Strategy.{Strategy};
    ghost use Rattle.strategies.specs.Conditions.{Fails};
    ghost use Rattle.strategies.specs.Runs.{Found};

    /// What is found.
    type Evidence;

    ghost strategy: { Strategy };

    ghost problem: { ProofProblem };

    /// The step by what is found, with the problems that it leaves.
    ghost answer: { Self.Evidence → Found };

    /// Searches for a step among all critical peaks.
    fn find<P: Stop>(
        alloc: Global,
        trs: &Trs,
        peaks: &[Peak<PooledTop>],
        pairs: &PeakPairs,
        budget: u64,
        stop: &mut P,
    ) -> Result<Search<Self::Evidence>, OutOfMemory>
        requires peaks { ListsPeaks trs.now.rules (Ok peaks.now) }
        requires pairs { HoldPairsOf pairs.now peaks.now }
        ensures answer { IfOk result (IsSearchFor trs.now budget strategy problem
            (λ found. IsTrueFound trs.now budget strategy problem (answer found))
            (P.stops stop.old < P.stops stop.new)) }
        ensures continues { Continues P.Stop stop.old stop.new };

    /// The step by what was found, with the problems that it leaves.
    fn findings(alloc: Global, found: Self::Evidence) -> Result<Findings, OutOfMemory>
        ensures { IfOk result (λ findings. found_of findings ≡ answer found) };

    ghost fails_past_limit: { (system : System) (budget : ℕ) (fault : PeakFault)
        → ListsPeaks system.rules (Err fault) → Fails system budget strategy problem Failure.NotThere };
}

/// What the strategy of a search answers over the critical peaks.
pub(crate) fn search_among<S: SearchOnPeaks, P: Stop>(
    alloc: Global,
    trs: &Trs,
    peaks: &KnownPeaks,
    budget: u64,
    stop: &mut P,
) -> Result<Searched, OutOfMemory>
    requires { AreKnownPeaks trs.now peaks.now }
    ensures answer { IfOk result (IsAnswer trs.now budget S.strategy S.problem
        (P.stops stop.old < P.stops stop.new)) }
    ensures continues { Continues P.Stop stop.old stop.new }
{
    let KnownPeaks::Listed(found) = peaks else {
        return Ok(Searched::Ended(Findings::NotThere));
    };
    match S::find(alloc, trs, &found.list, &found.pairs, budget, stop)? {
        Search::Found(found) => {
            let findings = S::findings(alloc, found)?;
            Ok(Searched::Ended(findings))
        }
        Search::NotThere => Ok(Searched::Ended(Findings::NotThere)),
        Search::Spent => Ok(Searched::Ended(Findings::Spent)),
        Search::Stopped => Ok(Searched::Stopped),
    }
}
