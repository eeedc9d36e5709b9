//! The strategy label.
ghost use Rattle.std.specs.Prelude.{◌≡◌, ◌<◌, Ok, IfOk};
ghost use Rattle.assign_search.specs.Continues.{Continues};
ghost use Rattle.join_find.specs.crit_pairs.PeakList.{ListsPeaks};
ghost use Rattle.join_find.specs.First.{Along};
ghost use Rattle.join_find.specs.Sides.{HaveSides};
ghost use Rattle.join_find.specs.StrongRow.{AreLinear};
ghost use Rattle.join_find.specs.Answers.{IsFinding};
ghost use Rattle.path_lists.specs.Growth.{GrowsBy};
ghost use Rattle.label_find.specs.ConstraintPuzzle.{IsConstraintFor};
ghost use Rattle.label_find.specs.Closing.{CanAllBeClosed};
ghost use Rattle.label_find.specs.ListedSides.{AreListed};
ghost use Rattle.label_find.specs.LabelAnswers.{IsLabelling, IsLabelledBy};
ghost use Rattle.join_find.specs.crit_pairs.PeakPairs.{HoldPairsOf};

use crate::constraint::PeakConstraint;
use crate::constraints::constraints_of;
use crate::joining::joins_by;
use crate::listed_sides::ListedSides;
use crate::side_rules::SideRules;
use crate::space::LabelSpace;
use assign_search::{Search, Stop, first_solution};
use join_find::{PeakPairs, are_linear, critical_peaks_have_sides};
use path_lists::{growth_of, path_lists_are_one};
use rewrite_core::{BuiltTop, Join, Peak, Top};
use std::alloc::Global;
use term_pool::RulesByRoot;
use trs_core::{OutOfMemory, Trs};

/// Ranks of the rules, and for each peak two paths that join it with fitting ranks.
#[derive(Drop)]
pub struct Labelled {
    pub ranks: Vec<u64>,
    pub joins: Vec<Join>,
}

/// Ranks of the rules by which each peak is decreasing: the first solution of the search over
/// the ranks 0 to 3 of each rule. The constraint of a peak is that some two of its paths lead to
/// one term and fit: of the first 256 from each side, of at most 4 steps and ends of at most
/// 4,096 nodes. It uses the peak's two rules and all rules of these paths. The paths that are
/// found are the first left path for which some right one closes the peak, and for it the first
/// such. All rules must be linear. The budget is that of `first_solution`.
///
/// `stop` is asked first, before each peak and before each prefix of ranks, and before each peak
/// again once ranks are found. A constraint is tested with no memory: for each end of paths from a
/// side the lists of rules along them are kept, each once, and shared by the peaks with this side.
pub fn find_label<P: Stop, T: BuiltTop>(
    alloc: Global,
    trs: &Trs,
    peaks: &[Peak<T>],
    budget: u64,
    stop: &mut P,
) -> Result<Search<Labelled>, OutOfMemory>
    requires critical { ListsPeaks trs.now.rules (Ok peaks.now) }
    ensures answer { IfOk result (IsLabelling
        trs.now.rules peaks.now budget (P.stops stop.old < P.stops stop.new)) }
    ensures continues { Continues P.Stop stop.old stop.new }
{
    let pairs = PeakPairs::of(alloc, peaks)?;
    label_among(alloc, trs, peaks, &pairs, budget, stop)
}

/// The same over peaks whose sides may stand elsewhere, as those of `pooled_peaks`.
pub fn label_among<P: Stop, T: Top>(
    alloc: Global,
    trs: &Trs,
    peaks: &[Peak<T>],
    pairs: &PeakPairs,
    budget: u64,
    stop: &mut P,
) -> Result<Search<Labelled>, OutOfMemory>
    requires critical { ListsPeaks trs.now.rules (Ok peaks.now) }
    requires pairs { HoldPairsOf pairs.now peaks.now }
    ensures answer { IfOk result (IsLabelling
        trs.now.rules peaks.now budget (P.stops stop.old < P.stops stop.new)) }
    ensures continues { Continues P.Stop stop.old stop.new }
{
    if stop.stopped() {
        return Ok(Search::Stopped);
    }
    critical_peaks_have_sides(trs);
    if !are_linear(trs) {
        return Ok(Search::NotThere);
    }
    let growth = growth_of(trs);
    let by_root = RulesByRoot::new(alloc, trs)?;
    let mut sides = ListedSides::new(alloc);
    let mut table = Vec::new(alloc);
    let found = constraints_of(
        alloc, trs, &by_root, growth, peaks, pairs, &mut sides, &mut table, stop,
    )?;
    match found {
        None => Ok(Search::Stopped),
        Some(constraints) => {
            search_ranks(
                alloc,
                trs,
                &by_root,
                growth,
                peaks,
                pairs,
                table,
                constraints,
                budget,
                &mut sides,
                stop,
            )
        }
    }
}

/// The search over these constraints of the peaks and the table of their sides.
fn search_ranks<P: Stop, T: Top>(
    alloc: Global,
    trs: &Trs,
    by_root: &RulesByRoot,
    growth: u64,
    peaks: &[Peak<T>],
    pairs: &PeakPairs,
    table: Vec<SideRules>,
    constraints: Vec<PeakConstraint>,
    budget: u64,
    sides: &mut ListedSides,
    stop: &mut P,
) -> Result<Search<Labelled>, OutOfMemory>
    requires critical { ListsPeaks trs.now.rules (Ok peaks.now) }
    requires by_root { by_root.now ≡ trs.now }
    requires grows { GrowsBy trs.now.rules growth }
    requires sides { HaveSides peaks.now }
    requires pairs { HoldPairsOf pairs.now peaks.now }
    requires listed { AreListed trs.now.rules pairs.now.pool sides.old }
    requires linear { AreLinear trs.now.rules }
    requires constraints { Along (IsConstraintFor trs.now.rules table.items)
        peaks.now constraints.items }
    ensures answer { IfOk result (IsLabelling
        trs.now.rules peaks.now budget (P.stops stop.old < P.stops stop.new)) }
    ensures continues { Continues P.Stop stop.old stop.new }
{
    path_lists_are_one();
    let rules = trs.rules().len() as u32;
    let space = LabelSpace {
        rules,
        sides: table,
        peaks: constraints,
    };
    match first_solution(alloc, &space, budget, stop) {
        Err(_) => Err(OutOfMemory),
        Ok(Search::Found(ranks)) => {
            labelled_by(
                alloc, trs, by_root, growth, peaks, pairs, &ranks, sides, stop,
            )
        }
        Ok(Search::NotThere) => Ok(Search::NotThere),
        Ok(Search::Spent) => Ok(Search::Spent),
        Ok(Search::Stopped) => Ok(Search::Stopped),
    }
}

/// The ranks that were found, with the first two paths of each peak that close it by them.
fn labelled_by<P: Stop, T: Top>(
    alloc: Global,
    trs: &Trs,
    by_root: &RulesByRoot,
    growth: u64,
    peaks: &[Peak<T>],
    pairs: &PeakPairs,
    ranks: &[u32],
    sides: &mut ListedSides,
    stop: &mut P,
) -> Result<Search<Labelled>, OutOfMemory>
    requires table { by_root.now ≡ trs.now }
    requires grows { GrowsBy trs.now.rules growth }
    requires sides { HaveSides peaks.now }
    requires pairs { HoldPairsOf pairs.now peaks.now }
    requires listed { AreListed trs.now.rules pairs.now.pool sides.old }
    requires can { CanAllBeClosed trs.now.rules ranks.now peaks.now }
    ensures answer { IfOk result (IsFinding (IsLabelledBy trs.now.rules peaks.now ranks.now) ⊥
        (P.stops stop.old < P.stops stop.new)) }
    ensures continues { Continues P.Stop stop.old stop.new }
{
    match joins_by(
        alloc, trs, by_root, growth, peaks, pairs, ranks, sides, stop,
    )? {
        None => Ok(Search::Stopped),
        Some(joins) => {
            let ranks = widen(alloc, ranks)?;
            Ok(Search::Found(Labelled { ranks, joins }))
        }
    }
}

/// The same numbers.
fn widen(alloc: Global, ranks: &[u32]) -> Result<Vec<u64>, OutOfMemory>
    ensures { IfOk result (λ wide. wide.items ≡ ranks.now) }
{
    let mut wide = Vec::with_capacity(alloc, ranks.len())?;
    for rank in ranks {
        wide.push(u64::from(*rank))?;
    }
    Ok(wide)
}
