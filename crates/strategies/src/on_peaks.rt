//! The strategies on critical peaks.
ghost use Rattle.std.specs.Prelude.{◌<◌, IfOk, IfSome};
ghost use Rattle.trs_defs.specs.Member.{In};
ghost use Rattle.cert_step.specs.ProofProblem.{problem_of};
ghost use Rattle.assign_search.specs.Continues.{Continues};
ghost use Rattle.strategies.specs.Endings.{IsAnswer};
ghost use Rattle.strategies.specs.Kinds.{strategies_for, IsOnPeaks};
ghost use Rattle.strategies.specs.Tables.{AreKnownPeaks};

use crate::Strategy;
use crate::fork::Forks;
use crate::label::Ranks;
use crate::newman::Joins;
use crate::parallel::ParallelSteps;
use crate::peak_search::search_among;
use crate::peaks::{KnownPeaks, known_peaks};
use crate::searched::Searched;
use crate::split::Splits;
use crate::strong::StrongJoins;
use assign_search::Stop;
use cert_step::Problem;
use std::alloc::Global;
use trs_core::{OutOfMemory, Trs};

/// What a strategy on critical peaks answers of a problem. The peaks are listed where they are not known.
pub(crate) fn search_on_peaks<P: Stop>(
    alloc: Global,
    trs: &Trs,
    peaks: Option<&KnownPeaks>,
    problem: &Problem,
    strategy: Strategy,
    budget: u64,
    stop: &mut P,
) -> Result<Searched, OutOfMemory>
    requires peaks { IfSome peaks (λ peaks. AreKnownPeaks trs.now peaks.now) }
    requires kind { In strategy (strategies_for (problem_of problem.now)) }
    requires on_peaks { IsOnPeaks strategy }
    ensures answer { IfOk result (IsAnswer trs.now budget strategy (problem_of problem.now)
        (P.stops stop.old < P.stops stop.new)) }
    ensures continues { Continues P.Stop stop.old stop.new }
{
    match peaks {
        Some(peaks) => search_peaks(alloc, trs, peaks, problem, strategy, budget, stop),
        None => {
            let peaks = known_peaks(alloc, trs)?;
            search_peaks(alloc, trs, &peaks, problem, strategy, budget, stop)
        }
    }
}

/// The same, over the critical peaks.
fn search_peaks<P: Stop>(
    alloc: Global,
    trs: &Trs,
    peaks: &KnownPeaks,
    problem: &Problem,
    strategy: Strategy,
    budget: u64,
    stop: &mut P,
) -> Result<Searched, OutOfMemory>
    requires peaks { AreKnownPeaks trs.now peaks.now }
    requires kind { In strategy (strategies_for (problem_of problem.now)) }
    requires on_peaks { IsOnPeaks strategy }
    ensures answer { IfOk result (IsAnswer trs.now budget strategy (problem_of problem.now)
        (P.stops stop.old < P.stops stop.new)) }
    ensures continues { Continues P.Stop stop.old stop.new }
{
    match strategy {
        Strategy::Parallel => search_among::<ParallelSteps, P>(alloc, trs, peaks, budget, stop),
        Strategy::Strong => search_among::<StrongJoins, P>(alloc, trs, peaks, budget, stop),
        Strategy::Label => search_among::<Ranks, P>(alloc, trs, peaks, budget, stop),
        Strategy::Newman => search_among::<Joins, P>(alloc, trs, peaks, budget, stop),
        Strategy::Fork => search_among::<Forks, P>(alloc, trs, peaks, budget, stop),
        Strategy::Split => search_among::<Splits, P>(alloc, trs, peaks, budget, stop),
        _ => unreachable!(),
    }
}
