//! The strategy parallel.
ghost use Rattle.std.specs.Prelude.{◌≡◌, ◌<◌, ◌≤◌, ◌+◌, ◌↔◌, List, Ok, IsTrue, false, length};
ghost use Rattle.std.specs.Prelude.{IfOk, OnOk, MatchOption};
ghost use Rattle.trs_defs.specs.Path.{PlacedRule};
ghost use Rattle.trs_defs.specs.Size.{size_of};
ghost use Rattle.trs_defs.specs.Variable.{IsLinear};
ghost use Rattle.term_pool.specs.Pooled.{Extends, StandsFor, tree_at};
ghost use Rattle.closed_pairs.specs.crit_pairs.PeakList.{ListsPeaks};
ghost use Rattle.closed_pairs.specs.ParallelClosed.{paths_of};
ghost use Rattle.assign_search.specs.Continues.{Continues};
ghost use Rattle.term_pool.specs.Crossing.{AreKnownIds};
ghost use Rattle.closed_pairs.specs.crit_pairs.PeakPairs.{HoldPairsOf};
ghost use Rattle.join_find.specs.Sides.{IsSideAt};
ghost use Rattle.join_find.specs.LastSteps.{CloseSides, NoneClose, AreLastSteps};
ghost use Rattle.join_find.specs.ParallelRow.{AreLeftLinear, IsParallelStep};
ghost use Rattle.join_find.specs.ParallelRow.{FindsParallel, FailsParallel};
ghost use Rattle.join_find.specs.Answers.{IsFinding};

use crate::last_steps::LastSteps;
use crate::parallel_step::add_steps;
use crate::sides::critical_peaks_have_sides;
use assign_search::{Search, Stop};
use closed_pairs::{Peak, PeakPair, PeakPairs};
use rewrite_core::{BuiltTop, PathStep, Top, copy_path};
use std::alloc::Global;
use term_pool::{KnownIds, PathFault, Pool, RulesByRoot, ids_are_distinct};
use trs_core::{MOST_NODES, OutOfMemory, Rule, Trs};

/// One parallel step from the left side of each peak to its right side: none where they are equal,
/// else the least rule that leads there at the root, else the steps of the arguments. Only such a
/// step counts, and only where its places, run in order, pass no limit. It never answers `Spent`.
/// They are run only where both sides have more nodes together than a computed term may have, since
/// no term on the way has more than that.
///
/// `stop` is asked before the first peak and before each one. All terms of a peak stand in one
/// pool, which after the peak has only sides of peaks.
pub fn find_parallel<P: Stop, T: BuiltTop>(
    alloc: Global,
    trs: &Trs,
    peaks: &[Peak<T>],
    stop: &mut P,
) -> Result<Search<Vec<Vec<PathStep>>>, OutOfMemory>
    requires critical { ListsPeaks trs.now.rules (Ok peaks.now) }
    ensures answer { IfOk result (IsFinding
        (λ steps. FindsParallel trs.now.rules peaks.now (paths_of steps.items))
        (FailsParallel trs.now.rules peaks.now) (P.stops stop.old < P.stops stop.new)) }
    ensures continues { Continues P.Stop stop.old stop.new }
{
    let pairs = PeakPairs::of(alloc, peaks)?;
    parallel_among(alloc, trs, peaks, &pairs, stop)
}

/// The same as `find_parallel`, of peaks whose sides stand in one pool.
pub fn parallel_among<P: Stop, T: Top>(
    alloc: Global,
    trs: &Trs,
    peaks: &[Peak<T>],
    pairs: &PeakPairs,
    stop: &mut P,
) -> Result<Search<Vec<Vec<PathStep>>>, OutOfMemory>
    requires critical { ListsPeaks trs.now.rules (Ok peaks.now) }
    requires pairs { HoldPairsOf pairs.now peaks.now }
    ensures answer { IfOk result (IsFinding
        (λ steps. FindsParallel trs.now.rules peaks.now (paths_of steps.items))
        (FailsParallel trs.now.rules peaks.now) (P.stops stop.old < P.stops stop.new)) }
    ensures continues { Continues P.Stop stop.old stop.new }
{
    if stop.stopped() {
        return Ok(Search::Stopped);
    }
    critical_peaks_have_sides(trs);
    if !are_left_linear(trs) {
        return Ok(Search::NotThere);
    }
    let by_root = RulesByRoot::new(alloc, trs)?;
    let from = pairs.pool();
    let mut pool = Pool::new(alloc);
    let mut known = KnownIds::new(alloc);
    let mut last = LastSteps::new(alloc);
    let mut steps = Vec::new(alloc);
    for n in 0..peaks.len() {
        if stop.stopped() {
            return Ok(Search::Stopped);
        }
        let ids = own_ids(alloc, &mut pool, &mut known, from, pairs.pair(n))?;
        match closing(alloc, &mut pool, &mut last, trs, &by_root, ids)? {
            Some(step) => steps.push(step)?,
            None => return Ok(Search::NotThere),
        }
    }
    Ok(Search::Found(steps))
}

/// Whether each left side is linear.
fn are_left_linear(trs: &Trs) -> bool
    ensures linear { IsTrue result → AreLeftLinear trs.now.rules }
    ensures not { result ≡ false → AreLeftLinear trs.now.rules → ⊥ }
{
    for rule in trs.rules() {
        if !has_linear_left(rule) {
            return false;
        }
    }
    true
}

fn has_linear_left(rule: &Rule) -> bool
    ensures { IsTrue result ↔ IsLinear rule.now.left }
{
    rule.left.is_linear()
}

/// The ids of two sides, which stand in another pool.
fn own_ids(
    alloc: Global,
    pool: &mut Pool,
    known: &mut KnownIds,
    from: &Pool,
    pair: PeakPair,
) -> Result<(u32, u32), OutOfMemory>
    requires left { pair.left < length from.now }
    requires right { pair.right < length from.now }
    requires known { AreKnownIds from.now pool.old known.old }
    ensures left { IfOk result (λ ids. StandsFor pool.new ids.0 (tree_at from.now pair.left)) }
    ensures right { IfOk result (λ ids. StandsFor pool.new ids.1 (tree_at from.now pair.right)) }
    ensures kept { Extends pool.old pool.new }
    ensures known { OnOk result (AreKnownIds from.now pool.new known.new) }
{
    let left = pool.take_over(alloc, from, pair.left, known)?;
    let right = pool.take_over(alloc, from, pair.right, known)?;
    Ok((left, right))
}

/// The parallel step between the sides with these ids, if there is one. It is searched for only where
/// it is not kept, and kept then. The pool is as before.
fn closing(
    alloc: Global,
    pool: &mut Pool,
    last: &mut LastSteps,
    trs: &Trs,
    by_root: &RulesByRoot,
    ids: (u32, u32),
) -> Result<Option<Vec<PathStep>>, OutOfMemory>
    requires rules { by_root.now ≡ trs.now }
    requires left { IsSideAt pool.old ids.0 }
    requires right { IsSideAt pool.old ids.1 }
    requires last { AreLastSteps trs.now.rules pool.old last.old }
    ensures step { IfOk result (λ found. MatchOption found
        (NoneClose trs.now.rules pool.old ids)
        (λ steps. CloseSides trs.now.rules pool.old ids steps.items)) }
    ensures released { OnOk result (pool.new ≡ pool.old) }
    ensures last { OnOk result (AreLastSteps trs.now.rules pool.old last.new) }
{
    if ids.0 == ids.1 {
        return Ok(Some(Vec::new(alloc)));
    }
    if let Some(steps) = last.between(ids) {
        return Ok(Some(copy_path(alloc, steps)?));
    }
    let mark = pool.mark();
    let found = closing_of_ids(alloc, pool, trs, by_root, ids)?;
    pool.release(mark);
    let Some(steps) = found else {
        return Ok(None);
    };
    last.keep(alloc, ids, &steps)?;
    Ok(Some(steps))
}

/// The same, where it is not kept. The pool may grow.
fn closing_of_ids(
    alloc: Global,
    pool: &mut Pool,
    trs: &Trs,
    by_root: &RulesByRoot,
    ids: (u32, u32),
) -> Result<Option<Vec<PathStep>>, OutOfMemory>
    requires rules { by_root.now ≡ trs.now }
    requires left { IsSideAt pool.old ids.0 }
    requires right { IsSideAt pool.old ids.1 }
    ensures step { IfOk result (λ found. MatchOption found
        (NoneClose trs.now.rules pool.old ids)
        (λ steps. CloseSides trs.now.rules pool.old ids steps.items)) }
    ensures kept { Extends pool.old pool.new }
{
    let found = steps_between(alloc, pool, trs, by_root, ids)?;
    let Some(steps) = found else {
        return Ok(None);
    };
    if have_few_nodes(pool, ids) {
        return Ok(Some(steps));
    }
    match pool.run_path(alloc, trs, ids.0, &steps) {
        Err(PathFault::OutOfMemory) => Err(OutOfMemory),
        Err(PathFault::At(_, _)) => Ok(None),
        Ok(end) => {
            ids_are_distinct(pool);
            if end == ids.1 {
                Ok(Some(steps))
            } else {
                Ok(None)
            }
        }
    }
}

/// Whether both terms have no more nodes together than a computed term may have.
fn have_few_nodes(pool: &Pool, ids: (u32, u32)) -> bool
    requires left { ids.0 < length pool.now }
    requires right { ids.1 < length pool.now }
    ensures { IsTrue result → size_of (tree_at pool.now ids.0)
        + size_of (tree_at pool.now ids.1) ≤ 65536 }
{
    let left = pool.size(ids.0);
    let right = pool.size(ids.1);
    left.saturating_add(right) <= MOST_NODES
}

/// The steps of the parallel step between the sides with these ids. The pool is as before.
fn steps_between(
    alloc: Global,
    pool: &mut Pool,
    trs: &Trs,
    by_root: &RulesByRoot,
    ids: (u32, u32),
) -> Result<Option<Vec<PathStep>>, OutOfMemory>
    requires rules { by_root.now ≡ trs.now }
    requires left { IsSideAt pool.old ids.0 }
    requires right { IsSideAt pool.old ids.1 }
    ensures steps { IfOk result (λ found. MatchOption found ((ss : List PlacedRule)
        → IsParallelStep trs.now.rules (tree_at pool.old ids.0) (tree_at pool.old ids.1) ss
        → ⊥) (λ steps. IsParallelStep trs.now.rules (tree_at pool.old ids.0)
        (tree_at pool.old ids.1) steps.items)) }
    ensures same { pool.new ≡ pool.old }
{
    let mut place = Vec::new(alloc);
    let mut steps = Vec::new(alloc);
    if !add_steps(alloc, pool, trs, by_root, ids, &mut place, &mut steps)? {
        return Ok(None);
    }
    Ok(Some(steps))
}
