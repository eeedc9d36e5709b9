//! The strategy poly.
ghost use Rattle.std.specs.Prelude.{◌≡◌, ◌<◌, All, IfOk, length};
ghost use Rattle.std.specs.List.Sorted.{IsStrictlyIncreasing};
ghost use Rattle.pair_theory.specs.DependencyPair.{dependency_pairs};
ghost use Rattle.assign_search.specs.Continues.{Continues};
ghost use Rattle.order_search.specs.dp_core.PlacedPairs.{placed_pairs};
ghost use Rattle.order_search.specs.Outcome.{IsFinding, IsNotThere, IsSpent};
ghost use Rattle.order_search.specs.OrderRow.{FailsOrder};
ghost use Rattle.order_search.specs.OrderOver.{search_of};
ghost use Rattle.poly_find.specs.PolyRow.{poly_search};
ghost use Rattle.poly_find.specs.Laws.{FindsPoly};

use crate::searching::search_linear;
use assign_search::{Search, Stop};
use order_search::{DpPair, OrderProblem, Pairs, lend_marked};
use poly_lin::LinTable;
use std::alloc::Global;
use trs_core::{OutOfMemory, Trs};

/// A linear interpretation that removes a pair of the problem. It is the first solution of a finite
/// search: for each symbol of the rules, ascending, and behind them for each marked root of the
/// pairs, ascending, a slot for its constant and one for the coefficient of each of its arguments,
/// with the values 0 to 2. Each rule falls weakly, then each pair does, and last some pair falls
/// strictly; a comparison that is too big is false. The budget is that of `first_solution`.
///
/// `stop` is asked before each prefix of values.
pub fn find_poly<P: Stop>(
    alloc: Global,
    trs: &Trs,
    all: &[DpPair],
    problem: &[u32],
    budget: u64,
    stop: &mut P,
) -> Result<Search<LinTable>, OutOfMemory>
    requires all { all.now ≡ placed_pairs trs.now.rules }
    requires ascending { IsStrictlyIncreasing problem.now }
    requires numbers { All (λ n. n < length (dependency_pairs trs.now.rules)) problem.now }
    ensures answer { IfOk result (IsFinding
        (λ order. FindsPoly trs.now problem.now budget order)
        (FailsOrder trs.now problem.now (search_of poly_search trs.now) (IsNotThere budget))
        (FailsOrder trs.now problem.now (search_of poly_search trs.now) (IsSpent budget))
        (P.stops stop.old < P.stops stop.new)) }
    ensures continues { Continues P.Stop stop.old stop.new }
{
    let pairs = Pairs::of(alloc, trs, all)?;
    find_poly_in(alloc, trs, &pairs, problem, budget, stop)
}

/// The same, where the pairs of the system are at hand.
pub fn find_poly_in<P: Stop>(
    alloc: Global,
    trs: &Trs,
    pairs: &Pairs,
    problem: &[u32],
    budget: u64,
    stop: &mut P,
) -> Result<Search<LinTable>, OutOfMemory>
    requires pairs { pairs.now ≡ dependency_pairs trs.now.rules }
    requires ascending { IsStrictlyIncreasing problem.now }
    requires numbers { All (λ n. n < length pairs.now) problem.now }
    ensures answer { IfOk result (IsFinding
        (λ order. FindsPoly trs.now problem.now budget order)
        (FailsOrder trs.now problem.now (search_of poly_search trs.now) (IsNotThere budget))
        (FailsOrder trs.now problem.now (search_of poly_search trs.now) (IsSpent budget))
        (P.stops stop.old < P.stops stop.new)) }
    ensures continues { Continues P.Stop stop.old stop.new }
{
    let over = OrderProblem::of(alloc, trs, pairs, problem)?;
    let marked = lend_marked(alloc, &over.marked)?;
    search_linear(
        alloc,
        over.arities,
        &over.symbols,
        &over.rules,
        &marked,
        budget,
        stop,
    )
}
