//! The strategy strong.
ghost use Rattle.std.specs.Prelude.{◌≡◌, ◌<◌, ◌↔◌, Ok, IsTrue, false, IfOk, OnOk, MatchOption};
ghost use Rattle.trs_defs.specs.Variable.{IsLinear};
ghost use Rattle.rewrite_core.specs.PlacedPeak.{PlacedPeak};
ghost use Rattle.closed_pairs.specs.crit_pairs.PeakList.{ListsPeaks};
ghost use Rattle.assign_search.specs.Continues.{Continues};
ghost use Rattle.closed_pairs.specs.crit_pairs.PeakPairs.{HoldPairsOf};
ghost use Rattle.closed_pairs.specs.crit_pairs.Table.{IsPair};
ghost use Rattle.join_find.specs.ReachedSides.{IsNarrowAt, AreReached, HasKnownIds};
ghost use Rattle.join_find.specs.StrongRow.{AreLinear, IsFirstFour, HasNoFour};
ghost use Rattle.join_find.specs.StrongRow.{FindsStrong, FailsStrong};
ghost use Rattle.join_find.specs.Answers.{IsFinding};

use crate::reached_sides::ReachedSides;
use crate::sides::critical_peaks_have_sides;
use assign_search::{Search, Stop};
use closed_pairs::{Four, Peak, PeakPair, PeakPairs};
use rewrite_core::{BuiltTop, Top};
use std::alloc::Global;
use term_pool::{Pool, RulesByRoot};
use trs_core::{OutOfMemory, Rule, Trs};

/// Strong joins of all peaks: for each the first term that its left side reaches and that its right
/// side is, or reaches in one step, and the same from its right side, within 16 steps, 256 terms and
/// 4,096 nodes. No step is preferred to one, and otherwise the least redex. It never answers `Spent`.
///
/// `stop` is asked before the first peak and before each one. What a side reaches is found once for
/// all its peaks, as long as not too much is kept.
pub fn find_strong<P: Stop, T: BuiltTop>(
    alloc: Global,
    trs: &Trs,
    peaks: &[Peak<T>],
    stop: &mut P,
) -> Result<Search<Vec<Four>>, OutOfMemory>
    requires critical { ListsPeaks trs.now.rules (Ok peaks.now) }
    ensures answer { IfOk result (IsFinding
        (λ fours. FindsStrong trs.now.rules peaks.now fours.items)
        (FailsStrong trs.now.rules peaks.now) (P.stops stop.old < P.stops stop.new)) }
    ensures continues { Continues P.Stop stop.old stop.new }
{
    let pairs = PeakPairs::of(alloc, peaks)?;
    strong_among(alloc, trs, peaks, &pairs, stop)
}

/// The same as `find_strong`, of peaks whose sides stand in one pool.
pub fn strong_among<P: Stop, T: Top>(
    alloc: Global,
    trs: &Trs,
    peaks: &[Peak<T>],
    pairs: &PeakPairs,
    stop: &mut P,
) -> Result<Search<Vec<Four>>, OutOfMemory>
    requires critical { ListsPeaks trs.now.rules (Ok peaks.now) }
    requires pairs { HoldPairsOf pairs.now peaks.now }
    ensures answer { IfOk result (IsFinding
        (λ fours. FindsStrong trs.now.rules peaks.now fours.items)
        (FailsStrong trs.now.rules peaks.now) (P.stops stop.old < P.stops stop.new)) }
    ensures continues { Continues P.Stop stop.old stop.new }
{
    if stop.stopped() {
        return Ok(Search::Stopped);
    }
    critical_peaks_have_sides(trs);
    if !are_linear(trs) {
        return Ok(Search::NotThere);
    }
    let by_root = RulesByRoot::new(alloc, trs)?;
    let from = pairs.pool();
    let mut sides = ReachedSides::new(alloc);
    let mut fours = Vec::new(alloc);
    for n in 0..peaks.len() {
        if stop.stopped() {
            return Ok(Search::Stopped);
        }
        match first_four(alloc, &mut sides, &by_root, from, pairs.pair(n))? {
            Some(four) => fours.push(four)?,
            None => return Ok(Search::NotThere),
        }
    }
    Ok(Search::Found(fours))
}

/// Whether both sides of each rule are linear.
pub fn are_linear(trs: &Trs) -> bool
    ensures linear { IsTrue result → AreLinear trs.now.rules }
    ensures not { result ≡ false → AreLinear trs.now.rules → ⊥ }
{
    for rule in trs.rules() {
        if !has_linear_sides(rule) {
            return false;
        }
    }
    true
}

fn has_linear_sides(rule: &Rule) -> bool
    ensures { IsTrue result ↔ (IsLinear rule.now.left × IsLinear rule.now.right) }
{
    rule.left.is_linear() && rule.right.is_linear()
}

/// The strong join of the peak with these sides, which stand in another pool, if there is one.
fn first_four(
    alloc: Global,
    sides: &mut ReachedSides,
    by_root: &RulesByRoot,
    from: &Pool,
    pair: PeakPair,
) -> Result<Option<Four>, OutOfMemory>
    requires left { IsNarrowAt from.now pair.left }
    requires right { IsNarrowAt from.now pair.right }
    requires sides { AreReached by_root.now.rules sides.old }
    requires ids { HasKnownIds from.now sides.old }
    ensures four { (peak : PlacedPeak) → IsPair from.now pair peak
        → IfOk result (λ found. MatchOption found
        (HasNoFour by_root.now.rules peak) (IsFirstFour by_root.now.rules peak)) }
    ensures sides { OnOk result (AreReached by_root.now.rules sides.new) }
    ensures ids { OnOk result (HasKnownIds from.now sides.new) }
{
    sides.make_room(alloc);
    let left = sides.intern(alloc, from, pair.left)?;
    let right = sides.intern(alloc, from, pair.right)?;
    let Some(u) = sides.first_half(alloc, by_root, left, right)? else {
        return Ok(None);
    };
    let Some(v) = sides.first_half(alloc, by_root, right, left)? else {
        return Ok(None);
    };
    Ok(Some(Four {
        left_u: u.left,
        right_u: u.right,
        right_v: v.left,
        left_v: v.right,
    }))
}
