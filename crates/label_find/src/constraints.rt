//! The constraints of all peaks.
ghost use Rattle.std.specs.Prelude.{◌≡◌, ◌<◌, IfOk, OnOk, MatchOption};
ghost use Rattle.assign_search.specs.Continues.{Continues};
ghost use Rattle.join_find.specs.First.{Along};
ghost use Rattle.join_find.specs.Sides.{HasSides, HaveSides};
ghost use Rattle.path_lists.specs.Growth.{GrowsBy};
ghost use Rattle.label_find.specs.ConstraintPuzzle.{IsConstraintFor};
ghost use Rattle.label_find.specs.ListedSides.{AreListed, AreNumbered, IsFrontOf};
ghost use Rattle.join_find.specs.crit_pairs.Table.{IsPair};
ghost use Rattle.join_find.specs.crit_pairs.PeakPairs.{HoldPairsOf};

use crate::constraint::PeakConstraint;
use crate::listed_sides::ListedSides;
use crate::side_rules::SideRules;
use assign_search::Stop;
use join_find::{PeakPair, PeakPairs};
use rewrite_core::{Peak, Top};
use std::alloc::Global;
use term_pool::{Pool, RulesByRoot, ids_are_distinct};
use trs_core::{OutOfMemory, Trs};

/// The constraint of each peak, over the table of their sides, or `None` where it was stopped. What
/// paths of sides are still listed then are lent to the search for joins.
pub(crate) fn constraints_of<P: Stop, T: Top>(
    alloc: Global,
    trs: &Trs,
    by_root: &RulesByRoot,
    growth: u64,
    peaks: &[Peak<T>],
    pairs: &PeakPairs,
    sides: &mut ListedSides,
    table: &mut Vec<SideRules>,
    stop: &mut P,
) -> Result<Option<Vec<PeakConstraint>>, OutOfMemory>
    requires by_root { by_root.now ≡ trs.now }
    requires grows { GrowsBy trs.now.rules growth }
    requires sides { HaveSides peaks.now }
    requires pairs { HoldPairsOf pairs.now peaks.now }
    requires listed { AreListed trs.now.rules pairs.now.pool sides.old }
    requires numbers { AreNumbered sides.old table.old.items }
    ensures constraints { IfOk result (λ found. MatchOption found
        (P.stops stop.old < P.stops stop.new)
        (λ constraints. Along (IsConstraintFor trs.now.rules table.new.items)
        peaks.now constraints.items)) }
    ensures listed { OnOk result (AreListed trs.now.rules pairs.now.pool sides.new) }
    ensures continues { Continues P.Stop stop.old stop.new }
{
    let mut constraints = Vec::new(alloc);
    for (n, peak) in peaks.iter().enumerate() {
        if stop.stopped() {
            return Ok(None);
        }
        let pair = pairs.pair(n);
        let from = pairs.pool();
        let constraint = constraint_at(
            alloc, trs, by_root, growth, peak, from, pair, sides, table,
        )?;
        constraints.push(constraint)?;
    }
    Ok(Some(constraints))
}

/// The constraint of one peak. Its sides are put into the table, if they are not there yet.
fn constraint_at<T: Top>(
    alloc: Global,
    trs: &Trs,
    by_root: &RulesByRoot,
    growth: u64,
    peak: &Peak<T>,
    from: &Pool,
    pair: PeakPair,
    sides: &mut ListedSides,
    table: &mut Vec<SideRules>,
) -> Result<PeakConstraint, OutOfMemory>
    requires by_root { by_root.now ≡ trs.now }
    requires grows { GrowsBy trs.now.rules growth }
    requires sides { HasSides peak.now }
    requires pair { IsPair from.now pair peak.now }
    requires listed { AreListed trs.now.rules from.now sides.old }
    requires numbers { AreNumbered sides.old table.old.items }
    ensures constraint { IfOk result
        (IsConstraintFor trs.now.rules table.new.items peak.now) }
    ensures grown { OnOk result (IsFrontOf table.old.items table.new.items) }
    ensures listed { OnOk result (AreListed trs.now.rules from.now sides.new) }
    ensures numbers { OnOk result (AreNumbered sides.new table.new.items) }
{
    sides.make_room(alloc);
    let left_id = sides.list(alloc, trs, by_root, growth, from, pair.left)?;
    let right_id = sides.list(alloc, trs, by_root, growth, from, pair.right)?;
    ids_are_distinct(sides.pool());
    let left = sides.number(alloc, left_id, table)?;
    let right = sides.number(alloc, right_id, table)?;
    PeakConstraint::new(alloc, peak.inner, peak.outer, left, right, table)
}
