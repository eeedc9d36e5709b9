//! The strategy split.
ghost use Rattle.std.specs.Prelude.{◌<◌, Ok, IfOk};
ghost use Rattle.assign_search.specs.Continues.{Continues};
ghost use Rattle.join_find.specs.crit_pairs.PeakList.{ListsPeaks};
ghost use Rattle.join_find.specs.Answers.{IsFinding};
ghost use Rattle.conf_find.specs.Fork.{fork_of};
ghost use Rattle.join_find.specs.crit_pairs.PeakPairs.{HoldPairsOf};
ghost use Rattle.conf_find.specs.ForkRows.{FindsSplit, FailsSplit};

use crate::endings::Endings;
use crate::first_fork::first_fork;
use crate::forks::ForkFound;
use assign_search::{Search, Stop};
use join_find::PeakPairs;
use rewrite_core::{BuiltTop, Peak, Top};
use std::alloc::Global;
use trs_core::{OutOfMemory, Trs};

/// A fork to two different normal forms. At the first peak that has one: the first normal form that
/// the left side reaches and for which the right side reaches a different one, and for it the first
/// such, within 8 steps, 32 terms and 4,096 nodes. It never answers `Spent`.
///
/// `stop` is asked before the first peak and before each one. What a side reaches is found once for
/// all its peaks, as long as not too much is kept.
pub fn find_split<P: Stop, T: BuiltTop>(
    alloc: Global,
    trs: &Trs,
    peaks: &[Peak<T>],
    stop: &mut P,
) -> Result<Search<ForkFound>, OutOfMemory>
    requires critical { ListsPeaks trs.now.rules (Ok peaks.now) }
    ensures answer { IfOk result (IsFinding
        (λ found. FindsSplit trs.now.rules peaks.now (fork_of found))
        (FailsSplit trs.now.rules peaks.now) (P.stops stop.old < P.stops stop.new)) }
    ensures continues { Continues P.Stop stop.old stop.new }
{
    let pairs = PeakPairs::of(alloc, peaks)?;
    split_among(alloc, trs, peaks, &pairs, stop)
}

/// The same over peaks whose sides may stand elsewhere, as those of `pooled_peaks`.
pub fn split_among<P: Stop, T: Top>(
    alloc: Global,
    trs: &Trs,
    peaks: &[Peak<T>],
    pairs: &PeakPairs,
    stop: &mut P,
) -> Result<Search<ForkFound>, OutOfMemory>
    requires critical { ListsPeaks trs.now.rules (Ok peaks.now) }
    requires pairs { HoldPairsOf pairs.now peaks.now }
    ensures answer { IfOk result (IsFinding
        (λ found. FindsSplit trs.now.rules peaks.now (fork_of found))
        (FailsSplit trs.now.rules peaks.now) (P.stops stop.old < P.stops stop.new)) }
    ensures continues { Continues P.Stop stop.old stop.new }
{
    first_fork::<Endings, P, T>(alloc, trs, peaks, pairs, stop)
}
