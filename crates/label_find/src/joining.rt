//! The paths that close all peaks by given ranks.
ghost use Rattle.std.specs.Prelude.{◌≡◌, ◌<◌, IfOk, OnOk, MatchOption};
ghost use Rattle.assign_search.specs.Continues.{Continues};
ghost use Rattle.join_find.specs.First.{Along};
ghost use Rattle.join_find.specs.Sides.{HasSides, HaveSides};
ghost use Rattle.path_lists.specs.Growth.{GrowsBy};
ghost use Rattle.label_find.specs.Closing.{CanBeClosed, CanAllBeClosed, IsJoinBy};
ghost use Rattle.label_find.specs.ListedSides.{AreListed};
ghost use Rattle.join_find.specs.crit_pairs.Table.{IsPair};
ghost use Rattle.join_find.specs.crit_pairs.PeakPairs.{HoldPairsOf};

use crate::closing::first_closing;
use crate::listed_sides::ListedSides;
use assign_search::Stop;
use join_find::{PeakPair, PeakPairs};
use rewrite_core::{Join, Peak, Top};
use std::alloc::Global;
use term_pool::{Pool, RulesByRoot};
use trs_core::{OutOfMemory, Trs};

/// For each peak the first two of its paths that close it by these ranks, or `None` where it was
/// stopped. Paths that were given up are listed anew, since those of all peaks may take much memory.
pub(crate) fn joins_by<P: Stop, T: Top>(
    alloc: Global,
    trs: &Trs,
    by_root: &RulesByRoot,
    growth: u64,
    peaks: &[Peak<T>],
    pairs: &PeakPairs,
    ranks: &[u32],
    sides: &mut ListedSides,
    stop: &mut P,
) -> Result<Option<Vec<Join>>, OutOfMemory>
    requires table { by_root.now ≡ trs.now }
    requires grows { GrowsBy trs.now.rules growth }
    requires sides { HaveSides peaks.now }
    requires pairs { HoldPairsOf pairs.now peaks.now }
    requires listed { AreListed trs.now.rules pairs.now.pool sides.old }
    requires can { CanAllBeClosed trs.now.rules ranks.now peaks.now }
    ensures joins { IfOk result (λ found. MatchOption found
        (P.stops stop.old < P.stops stop.new)
        (λ joins. Along (IsJoinBy trs.now.rules ranks.now) peaks.now joins.items)) }
    ensures continues { Continues P.Stop stop.old stop.new }
{
    let mut joins = Vec::new(alloc);
    for (n, peak) in peaks.iter().enumerate() {
        if stop.stopped() {
            return Ok(None);
        }
        let pair = pairs.pair(n);
        let from = pairs.pool();
        let join = join_at(alloc, sides, trs, by_root, growth, peak, from, pair, ranks)?;
        joins.push(join)?;
    }
    Ok(Some(joins))
}

/// The paths that close one peak.
fn join_at<T: Top>(
    alloc: Global,
    sides: &mut ListedSides,
    trs: &Trs,
    by_root: &RulesByRoot,
    growth: u64,
    peak: &Peak<T>,
    from: &Pool,
    pair: PeakPair,
    ranks: &[u32],
) -> Result<Join, OutOfMemory>
    requires table { by_root.now ≡ trs.now }
    requires grows { GrowsBy trs.now.rules growth }
    requires sides { HasSides peak.now }
    requires pair { IsPair from.now pair peak.now }
    requires listed { AreListed trs.now.rules from.now sides.old }
    requires can { CanBeClosed trs.now.rules ranks.now peak.now }
    ensures join { IfOk result (IsJoinBy trs.now.rules ranks.now peak.now) }
    ensures listed { OnOk result (AreListed trs.now.rules from.now sides.new) }
{
    sides.make_room(alloc);
    let left = sides.list(alloc, trs, by_root, growth, from, pair.left)?;
    let right = sides.list(alloc, trs, by_root, growth, from, pair.right)?;
    let numbers = (peak.inner, peak.outer);
    first_closing(
        alloc,
        sides.pool(),
        ranks,
        numbers,
        sides.at(left),
        sides.at(right),
    )
}
