//! The strategy usable.
ghost use Rattle.std.specs.Prelude.{◌≡◌, ◌<◌, All, IfOk, length};
ghost use Rattle.std.specs.List.Sorted.{IsStrictlyIncreasing};
ghost use Rattle.pair_theory.specs.DependencyPair.{dependency_pairs};
ghost use Rattle.assign_search.specs.Continues.{Continues};
ghost use Rattle.order_search.specs.dp_core.PlacedPairs.{placed_pairs};
ghost use Rattle.order_search.specs.Outcome.{IsFinding, IsNotThere, IsSpent};
ghost use Rattle.poly_find.specs.UsableRow.{FindsUsable, FailsUsable};

use crate::chosen::choose_rules;
use crate::searching::search_linear;
use assign_search::{Search, Stop};
use order_search::taking::take_pairs;
use order_search::{
    DpPair, Pairs, lend_marked, lend_rules, marked_rules, placed_pairs_are_the_pairs,
    symbols_with_sides,
};
use pair_theory::dependency_pairs_suffice;
use poly_lin::LinTable;
use std::alloc::Global;
use trs_core::{OutOfMemory, Trs};
use usable_rules::usable_for;

/// A linear interpretation that makes the usable rules of the problem weak and removes a pair. It
/// is the first solution of a finite search: for each symbol of the usable rules and below the
/// roots of the pairs, ascending, and behind them for each marked root of the pairs, ascending, a
/// slot for its constant and one for the coefficient of each of its arguments, with the values 0 to
/// 2. Each usable rule falls weakly, then each pair does, and last some pair falls strictly; a
/// comparison that is too big is false. The budget is that of `first_solution`.
///
/// `stop` is asked before each prefix of values.
pub fn find_usable<P: Stop>(
    alloc: Global,
    trs: &Trs,
    all: &[DpPair],
    problem: &[u32],
    budget: u64,
    stop: &mut P,
) -> Result<Search<LinTable>, OutOfMemory>
    requires all { all.now ≡ placed_pairs trs.now.rules }
    requires ascending { IsStrictlyIncreasing problem.now }
    requires numbers { All (λ n. n < length (dependency_pairs trs.now.rules)) problem.now }
    ensures answer { IfOk result (IsFinding
        (λ order. FindsUsable trs.now problem.now budget order)
        (FailsUsable trs.now problem.now (IsNotThere budget))
        (FailsUsable trs.now problem.now (IsSpent budget))
        (P.stops stop.old < P.stops stop.new)) }
    ensures continues { Continues P.Stop stop.old stop.new }
{
    let pairs = Pairs::of(alloc, trs, all)?;
    find_usable_in(alloc, trs, &pairs, problem, budget, stop)
}

/// The same, where the pairs of the system are at hand.
pub fn find_usable_in<P: Stop>(
    alloc: Global,
    trs: &Trs,
    pairs: &Pairs,
    problem: &[u32],
    budget: u64,
    stop: &mut P,
) -> Result<Search<LinTable>, OutOfMemory>
    requires pairs { pairs.now ≡ dependency_pairs trs.now.rules }
    requires ascending { IsStrictlyIncreasing problem.now }
    requires numbers { All (λ n. n < length pairs.now) problem.now }
    ensures answer { IfOk result (IsFinding
        (λ order. FindsUsable trs.now problem.now budget order)
        (FailsUsable trs.now problem.now (IsNotThere budget))
        (FailsUsable trs.now problem.now (IsSpent budget))
        (P.stops stop.old < P.stops stop.new)) }
    ensures continues { Continues P.Stop stop.old stop.new }
{
    let arities = trs.arities();
    let rules = trs.rules();
    placed_pairs_are_the_pairs();
    dependency_pairs_suffice();
    let taken = take_pairs(alloc, pairs.sides(), problem)?;
    let numbers = usable_for(alloc, trs, pairs, problem)?;
    let usable = choose_rules(alloc, rules, &numbers)?;
    let symbols = symbols_with_sides(alloc, &usable, &taken)?;
    let marked = marked_rules(alloc, &taken)?;
    let lent_rules = lend_rules(alloc, &usable)?;
    let lent_pairs = lend_marked(alloc, &marked)?;
    search_linear(
        alloc,
        arities,
        &symbols,
        &lent_rules,
        &lent_pairs,
        budget,
        stop,
    )
}
