//! The first fork among critical peaks to two terms that never meet.
ghost use Rattle.std.specs.Prelude.{◌≡◌, ◌<◌, All, length, Ok, IsTrue, IfOk, OnOk, MatchOption};
ghost use Rattle.term_pool.specs.ListedIds.{listed_at};
ghost use Rattle.term_pool.specs.Pooled.{tree_at};
ghost use Rattle.assign_search.specs.Continues.{Continues};
ghost use Rattle.join_find.specs.crit_pairs.PeakList.{ListsPeaks, IsListed};
ghost use Rattle.join_find.specs.Sides.{HasSides};
ghost use Rattle.join_find.specs.Answers.{IsFinding};
ghost use Rattle.conf_find.specs.Fork.{fork_of};
ghost use Rattle.conf_find.specs.ForkRows.{FindsParted, FailsParted, PartsNot, PartsBy, IsTestOf};
ghost use Rattle.conf_find.specs.ForkRows.{NothingParted, PartsLists};
ghost use Rattle.conf_find.specs.Marks.{AreMarkedIds};
ghost use Rattle.conf_find.specs.ReachedSides.{AreReached, AreMarksOf};
ghost use Rattle.join_find.specs.crit_pairs.Table.{IsPair};
ghost use Rattle.join_find.specs.crit_pairs.PeakPairs.{HoldPairsOf};

use crate::forks::{ForkFound, fork_from};
use crate::marks::Marks;
use crate::parting::first_parted;
use crate::reached_sides::{ReachedSides, make_room};
use crate::reaching::entry;
use assign_search::{Search, Stop};
use join_find::{PeakPair, PeakPairs, critical_peaks_have_sides, top_of};
use rewrite_core::{ForkTest, PathStep, Peak, Top};
use std::alloc::Global;
use term_pool::{Pool, RulesByRoot, ids_are_distinct};
use trs_core::{OutOfMemory, Trs};

/// The fork at the first peak that has one: to the first term that the left side reaches and that
/// never meets some term that the right side reaches, as their marks tell, and for it to the first
/// such term.
///
/// `stop` is asked before the first peak and before each one. What a side reaches is found once for
/// all its peaks, as long as not too much is kept, and a peak with the sides of the one before it is
/// passed over.
pub(crate) fn first_fork<M: Marks, P: Stop, T: Top>(
    alloc: Global,
    trs: &Trs,
    peaks: &[Peak<T>],
    pairs: &PeakPairs,
    stop: &mut P,
) -> Result<Search<ForkFound>, OutOfMemory>
    requires critical { ListsPeaks trs.now.rules (Ok peaks.now) }
    requires pairs { HoldPairsOf pairs.now peaks.now }
    ensures answer { IfOk result (IsFinding
        (λ found. FindsParted M.never_meet trs.now.rules peaks.now (fork_of found))
        (FailsParted M.never_meet trs.now.rules peaks.now) (P.stops stop.old < P.stops stop.new)) }
    ensures continues { Continues P.Stop stop.old stop.new }
{
    if stop.stopped() {
        return Ok(Search::Stopped);
    }
    critical_peaks_have_sides(trs);
    let by_root = RulesByRoot::new(alloc, trs)?;
    let mut sides = ReachedSides::new(alloc);
    let mut marks = M::new(alloc);
    let mut before: Option<PeakPair> = None;
    for (n, peak) in peaks.iter().enumerate() {
        if stop.stopped() {
            return Ok(Search::Stopped);
        }
        let pair = pairs.pair(n);
        if let Some(other) = before {
            if have_same_ids(other, pair) {
                continue;
            }
        }
        let from = pairs.pool();
        match fork_at(alloc, &mut sides, &mut marks, &by_root, peak, from, pair)? {
            Some(found) => return Ok(Search::Found(found)),
            None => before = Some(pair),
        }
    }
    Ok(Search::NotThere)
}

/// Whether two pairs have the same ids.
fn have_same_ids(a: PeakPair, b: PeakPair) -> bool
    ensures { IsTrue result → (a.left ≡ b.left) × (a.right ≡ b.right) }
{
    a.left == b.left && a.right == b.right
}

/// The fork of one peak, if there is one.
fn fork_at<M: Marks, T: Top>(
    alloc: Global,
    sides: &mut ReachedSides,
    marks: &mut M,
    by_root: &RulesByRoot,
    peak: &Peak<T>,
    from: &Pool,
    pair: PeakPair,
) -> Result<Option<ForkFound>, OutOfMemory>
    requires listed { IsListed by_root.now.rules peak.now }
    requires peak { HasSides peak.now }
    requires pair { IsPair from.now pair peak.now }
    requires sides { AreReached by_root.now.rules from.now sides.old }
    requires marks { AreMarksOf M.has_mark M.of_pool by_root.now.rules sides.old marks.old }
    ensures fork { IfOk result (λ found. MatchOption found
        (PartsNot M.never_meet by_root.now.rules peak.now)
        (λ f. PartsBy M.never_meet by_root.now.rules peak.now (fork_of f))) }
    ensures sides { OnOk result (AreReached by_root.now.rules from.now sides.new) }
    ensures marks { OnOk result (
        AreMarksOf M.has_mark M.of_pool by_root.now.rules sides.new marks.new) }
{
    make_room(alloc, sides, marks);
    let left = sides.list(alloc, by_root, from, pair.left, marks)?;
    let right = sides.list(alloc, by_root, from, pair.right, marks)?;
    let lefts = sides.at(left);
    let rights = sides.at(right);
    fork_between(alloc, sides.pool(), by_root, peak, marks, lefts, rights)
}

/// The fork to the first two terms of these lists that never meet.
fn fork_between<M: Marks, T: Top>(
    alloc: Global,
    pool: &Pool,
    by_root: &RulesByRoot,
    peak: &Peak<T>,
    marks: &M,
    lefts: &[(u32, Vec<PathStep>)],
    rights: &[(u32, Vec<PathStep>)],
) -> Result<Option<ForkFound>, OutOfMemory>
    requires listed { IsListed by_root.now.rules peak.now }
    requires lefts { All (λ e. e.0 < length pool.now) lefts.now }
    requires rights { All (λ e. e.0 < length pool.now) rights.now }
    requires marked_lefts { AreMarkedIds M.has_mark marks.now lefts.now }
    requires marked_rights { AreMarkedIds M.has_mark marks.now rights.now }
    requires marks { M.of_pool by_root.now.rules pool.now marks.now }
    ensures { IfOk result (λ found. MatchOption found
        (NothingParted M.never_meet by_root.now.rules (listed_at pool.now lefts.now)
        (listed_at pool.now rights.now))
        (λ f. PartsLists M.never_meet by_root.now.rules peak.now (listed_at pool.now lefts.now)
        (listed_at pool.now rights.now) (fork_of f))) }
{
    match first_parted(marks, pool, by_root, lefts, rights) {
        None => Ok(None),
        Some((i, j)) => {
            let left = entry(lefts, i);
            let right = entry(rights, j);
            let test = test_of(alloc, pool, by_root, left.0, right.0)?;
            let start = top_of(alloc, by_root.trs(), peak)?;
            let found = fork_from(alloc, start, peak, &left.1, &right.1, test)?;
            Ok(Some(found))
        }
    }
}

/// `Normal` where both terms are normal forms, else `Apart`.
fn test_of(
    alloc: Global,
    pool: &Pool,
    by_root: &RulesByRoot,
    left: u32,
    right: u32,
) -> Result<ForkTest, OutOfMemory>
    requires left { left < length pool.now }
    requires right { right < length pool.now }
    ensures { IfOk result (
        IsTestOf by_root.now.rules (tree_at pool.now left) (tree_at pool.now right)) }
{
    if pool.is_normal(alloc, by_root, left)? && pool.is_normal(alloc, by_root, right)? {
        Ok(ForkTest::Normal)
    } else {
        Ok(ForkTest::Apart)
    }
}
