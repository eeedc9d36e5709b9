ghost use Rattle.std.specs.Prelude.{◌≡◌, ◌<◌, IfOk};
ghost use Rattle.trs_defs.specs.Member.{In};
ghost use Rattle.cert_step.specs.ProofProblem.{problem_of, IsWellMadeProblem};
ghost use Rattle.assign_search.specs.Continues.{Continues};
ghost use Rattle.strategies.specs.Endings.{IsAnswer, IfEnded, IfStopped};
ghost use Rattle.strategies.specs.Kinds.{strategies_for};
ghost use Rattle.strategies.specs.Truth.{IsTrueRun};

use crate::confluence::search_confluence;
use crate::dp::search_dp;
use crate::graph::search_graph;
use crate::kbo::KnuthBendixOrders;
use crate::loops::search_loop;
use crate::lpo::PathOrders;
use crate::on_peaks::search_on_peaks;
use crate::pair_search::search_on_pairs;
use crate::poly::Interpretations;
use crate::searched::{Searched, ending};
use crate::searcher::Searcher;
use crate::subterm::Projections;
use crate::tables::Tables;
use crate::usable::UsableInterpretations;
use crate::{Limits, Ran, Strategy};
use assign_search::Stop;
use cert_step::{Prepared, Problem};
use std::alloc::Global;
use trs_core::{OutOfMemory, Trs};

/// Runs a strategy on a problem of a system. It ends with an outcome, which is true by its type, or
/// it was stopped, and then the count of stops rose. Where several strategies are run on one system,
/// make its `Tables` once, and run them by a `Searcher`.
pub fn run_strategy<'a, P: Stop>(
    alloc: Global,
    trs: &'a Trs,
    problem: &Problem,
    strategy: Strategy,
    limits: &Limits,
    stop: &mut P,
) -> Result<Ran<'a>, OutOfMemory>
    requires problem { IsWellMadeProblem trs.now (problem_of problem.now) }
    requires kind { In strategy (strategies_for (problem_of problem.now)) }
    ensures system { IfOk result (IfEnded (λ o. o.system ≡ trs.now)) }
    ensures limits { IfOk result (IfEnded (λ o. o.budget ≡ limits.now.budget)) }
    ensures problem { IfOk result (IfEnded (λ o. o.problem ≡ problem_of problem.now)) }
    ensures strategy { IfOk result (IfEnded (λ o. o.strategy ≡ strategy)) }
    ensures is_true { IfOk result (IfEnded IsTrueRun) }
    ensures stopped { IfOk result (IfStopped (P.stops stop.old < P.stops stop.new)) }
    ensures continues { Continues P.Stop stop.old stop.new }
{
    let tables = Tables::new(trs);
    let mut searcher = Searcher::new(&tables);
    searcher.run(alloc, problem, strategy, limits, stop)
}

/// What a strategy answers of a problem.
pub(crate) fn search<P: Stop>(
    alloc: Global,
    trs: &Trs,
    tables: &Tables,
    prepared: &mut Prepared,
    problem: &Problem,
    strategy: Strategy,
    budget: u64,
    stop: &mut P,
) -> Result<Searched, OutOfMemory>
    requires tables { tables.now ≡ trs.now }
    requires prepared { prepared.old ≡ trs.now }
    requires problem { IsWellMadeProblem trs.now (problem_of problem.now) }
    requires kind { In strategy (strategies_for (problem_of problem.now)) }
    ensures answer { IfOk result (IsAnswer trs.now budget strategy (problem_of problem.now)
        (P.stops stop.old < P.stops stop.new)) }
    ensures prepared { prepared.new ≡ trs.now }
    ensures continues { Continues P.Stop stop.old stop.new }
{
    match strategy {
        Strategy::Dp => ending(search_dp(alloc, trs, prepared, problem)),
        Strategy::Graph => ending(search_graph(alloc, trs, prepared, problem)),
        Strategy::Subterm => {
            search_on_pairs::<Projections, P>(alloc, trs, prepared, problem, budget, stop)
        }
        Strategy::Poly => {
            search_on_pairs::<Interpretations, P>(alloc, trs, prepared, problem, budget, stop)
        }
        Strategy::Lpo => {
            search_on_pairs::<PathOrders, P>(alloc, trs, prepared, problem, budget, stop)
        }
        Strategy::Kbo => {
            search_on_pairs::<KnuthBendixOrders, P>(alloc, trs, prepared, problem, budget, stop)
        }
        Strategy::Usable => {
            search_on_pairs::<UsableInterpretations, P>(alloc, trs, prepared, problem, budget, stop)
        }
        Strategy::Loop => search_loop(alloc, trs, budget, stop),
        Strategy::Confluence => ending(search_confluence(alloc, trs, prepared, problem)),
        _ => search_on_peaks(alloc, trs, tables.peaks(), problem, strategy, budget, stop),
    }
}
