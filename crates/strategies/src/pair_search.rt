//! The strategies that remove pairs.
ghost use Rattle.std.specs.Prelude.{◌≡◌, ◌<◌, IfOk, IsTrue};
ghost use Rattle.pair_theory.specs.DependencyPair.{dependency_pairs};
ghost use Rattle.cert_step.specs.OnPairs.{for_pairs};
ghost use Rattle.cert_step.specs.ProofProblem.{dp, problem_of, IsWellMadeProblem};
ghost use Rattle.cert_step.specs.ProofStep.{step_of};
ghost use Rattle.assign_search.specs.Continues.{Continues};
ghost use Rattle.strategies.specs.Endings.{FindsStep, IsAnswer, IsSearchFor};

use crate::Findings;
use crate::found::leaving;
use crate::searched::Searched;
use assign_search::{Search, Stop};
use cert_step::{Pairs, Prepared, Problem, Step};
use std::alloc::Global;
use trs_core::{OutOfMemory, Trs};

/// A search for a step that removes pairs.
pub(crate) trait SearchOnPairs {
    ghost use Rattle.cert_step.specs.ProofStep.{ProofStep};
    ghost use Rattle.strategies.specs.declared.strategy.Strategy.{Strategy};

    /// What is found.
    type Found;

    ghost strategy: { Strategy };

    /// The step by what is found.
    ghost step: { Self.Found → ProofStep };

    /// Searches for a step on the problem of the pairs of these numbers.
    fn find<P: Stop>(
        alloc: Global,
        trs: &Trs,
        pairs: &Pairs,
        numbers: &[u32],
        budget: u64,
        stop: &mut P,
    ) -> Result<Search<Self::Found>, OutOfMemory>
        requires pairs { pairs.now ≡ dependency_pairs trs.now.rules }
        requires well_made { IsWellMadeProblem trs.now (dp numbers.now) }
        ensures answer { IfOk result (IsSearchFor trs.now budget strategy (dp numbers.now)
            (λ found. FindsStep trs.now budget strategy (dp numbers.now) (step found))
            (P.stops stop.old < P.stops stop.new)) }
        ensures continues { Continues P.Stop stop.old stop.new };

    /// The step by what was found.
    fn into_step(found: Self::Found) -> Step
        ensures { step_of result ≡ step found };
}

/// What the strategy of a search answers of a problem of pairs.
pub(crate) fn search_on_pairs<S: SearchOnPairs, P: Stop>(
    alloc: Global,
    trs: &Trs,
    prepared: &mut Prepared,
    problem: &Problem,
    budget: u64,
    stop: &mut P,
) -> Result<Searched, OutOfMemory>
    requires prepared { prepared.old ≡ trs.now }
    requires on_pairs { IsTrue (for_pairs (problem_of problem.now)) }
    requires well_made { IsWellMadeProblem trs.now (problem_of problem.now) }
    ensures answer { IfOk result (IsAnswer trs.now budget S.strategy (problem_of problem.now)
        (P.stops stop.old < P.stops stop.new)) }
    ensures prepared { prepared.new ≡ trs.now }
    ensures continues { Continues P.Stop stop.old stop.new }
{
    let Problem::Dp(numbers) = problem else {
        unreachable!()
    };
    let pairs = prepared.take_pairs(alloc)?;
    let searched = S::find(alloc, trs, pairs.get(), numbers, budget, stop);
    prepared.put_pairs(pairs);
    match searched? {
        Search::Found(found) => {
            let findings = leaving(alloc, prepared, problem, S::into_step(found))?;
            Ok(Searched::Ended(findings))
        }
        Search::NotThere => Ok(Searched::Ended(Findings::NotThere)),
        Search::Spent => Ok(Searched::Ended(Findings::Spent)),
        Search::Stopped => Ok(Searched::Stopped),
    }
}
