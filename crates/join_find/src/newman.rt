//! The strategy newman.
ghost use Rattle.std.specs.Prelude.{◌<◌, List, Ok, IfOk, OnOk, MatchOption};
ghost use Rattle.trs_defs.specs.Tree.{Tree};
ghost use Rattle.rewrite_core.specs.PlacedPeak.{PlacedPeak};
ghost use Rattle.closed_pairs.specs.crit_pairs.PeakList.{ListsPeaks};
ghost use Rattle.assign_search.specs.Continues.{Continues};
ghost use Rattle.closed_pairs.specs.crit_pairs.PeakPairs.{HoldPairsOf};
ghost use Rattle.closed_pairs.specs.crit_pairs.Table.{IsPair};
ghost use Rattle.join_find.specs.NewmanRow.{IsFirstJoin, HasNoJoin, FindsNewman, FailsNewman};
ghost use Rattle.join_find.specs.ReachedSides.{IsNarrowAt, AreReached, HasKnownIds};
ghost use Rattle.join_find.specs.Answers.{IsFinding};

use crate::reached_sides::ReachedSides;
use crate::sides::critical_peaks_have_sides;
use assign_search::{Search, Stop};
use closed_pairs::{Join, Peak, PeakPair, PeakPairs};
use rewrite_core::{BuiltTop, Top};
use std::alloc::Global;
use term_pool::{Pool, RulesByRoot};
use trs_core::{OutOfMemory, Trs};

/// Joins of all peaks: for each the first term that its left side reaches among those that its
/// right side reaches, within 16 steps, 256 terms and 4,096 nodes. It never answers `Spent`.
///
/// `stop` is asked before the first peak and before each one. What a side reaches is found once for
/// all its peaks, as long as not too much is kept.
pub fn find_newman<P: Stop, T: BuiltTop>(
    alloc: Global,
    trs: &Trs,
    peaks: &[Peak<T>],
    stop: &mut P,
) -> Result<Search<Vec<Join>>, OutOfMemory>
    requires critical { ListsPeaks trs.now.rules (Ok peaks.now) }
    ensures answer { IfOk result (IsFinding
        (λ joins. FindsNewman trs.now.rules peaks.now joins.items)
        (FailsNewman trs.now.rules peaks.now) (P.stops stop.old < P.stops stop.new)) }
    ensures continues { Continues P.Stop stop.old stop.new }
{
    let pairs = PeakPairs::of(alloc, peaks)?;
    newman_among(alloc, trs, peaks, &pairs, stop)
}

/// The same as `find_newman`, of peaks whose sides stand in one pool.
pub fn newman_among<P: Stop, T: Top>(
    alloc: Global,
    trs: &Trs,
    peaks: &[Peak<T>],
    pairs: &PeakPairs,
    stop: &mut P,
) -> Result<Search<Vec<Join>>, OutOfMemory>
    requires critical { ListsPeaks trs.now.rules (Ok peaks.now) }
    requires pairs { HoldPairsOf pairs.now peaks.now }
    ensures answer { IfOk result (IsFinding
        (λ joins. FindsNewman trs.now.rules peaks.now joins.items)
        (FailsNewman trs.now.rules peaks.now) (P.stops stop.old < P.stops stop.new)) }
    ensures continues { Continues P.Stop stop.old stop.new }
{
    if stop.stopped() {
        return Ok(Search::Stopped);
    }
    critical_peaks_have_sides(trs);
    let by_root = RulesByRoot::new(alloc, trs)?;
    let from = pairs.pool();
    let mut sides = ReachedSides::new(alloc);
    let mut joins = Vec::new(alloc);
    for n in 0..peaks.len() {
        if stop.stopped() {
            return Ok(Search::Stopped);
        }
        match first_join(alloc, &mut sides, &by_root, from, pairs.pair(n))? {
            Some(join) => joins.push(join)?,
            None => return Ok(Search::NotThere),
        }
    }
    Ok(Search::Found(joins))
}

/// The join of the peak with these sides, which stand in another pool, if there is one.
fn first_join(
    alloc: Global,
    sides: &mut ReachedSides,
    by_root: &RulesByRoot,
    from: &Pool,
    pair: PeakPair,
) -> Result<Option<Join>, OutOfMemory>
    requires left { IsNarrowAt from.now pair.left }
    requires right { IsNarrowAt from.now pair.right }
    requires sides { AreReached by_root.now.rules sides.old }
    requires ids { HasKnownIds from.now sides.old }
    ensures join { (peak : PlacedPeak) → IsPair from.now pair peak
        → IfOk result (λ found. MatchOption found
        (HasNoJoin by_root.now.rules peak) (IsFirstJoin by_root.now.rules peak)) }
    ensures sides { OnOk result (AreReached by_root.now.rules sides.new) }
    ensures ids { OnOk result (HasKnownIds from.now sides.new) }
{
    sides.make_room(alloc);
    let left = sides.intern(alloc, from, pair.left)?;
    let right = sides.intern(alloc, from, pair.right)?;
    sides.first_join(alloc, by_root, left, right)
}
