//! The strategy lpo.
ghost use Rattle.std.specs.Prelude.{◌≡◌, ◌<◌, All, IfOk, length};
ghost use Rattle.std.specs.List.Sorted.{IsStrictlyIncreasing};
ghost use Rattle.pair_theory.specs.DependencyPair.{dependency_pairs};
ghost use Rattle.assign_search.specs.Continues.{Continues};
ghost use Rattle.order_search.specs.dp_core.PlacedPairs.{placed_pairs};
ghost use Rattle.order_search.specs.Outcome.{IsFinding, IsNotThere, IsSpent};
ghost use Rattle.order_search.specs.Slots.{puzzle_of};
ghost use Rattle.order_search.specs.OrderRow.{FailsOrder};
ghost use Rattle.order_search.specs.OrderOver.{IsOrderOver};
ghost use Rattle.order_search.specs.OrderProblem.{IsSearchable};
ghost use Rattle.lpo_find.specs.LpoRow.{path_entry, path_search, lpo_search};
ghost use Rattle.lpo_find.specs.Laws.{FindsLpo};

use crate::filters::symbol_filters;
use crate::kept::KeptSides;
use crate::space::LpoSpace;
use assign_search::{Search, Stop};
use order_search::placing::SymbolPlaces;
use order_search::{DpPair, LentRule, OrderProblem, Pairs, find_first_by, lend_marked};
use path_lpo::Lpo;
use std::alloc::Global;
use trs_core::{OutOfMemory, Trs};

/// A path order with argument filters that removes a pair of the problem. It is the first solution
/// of a finite search: two slots for each symbol of the rules, ascending, and behind them for each
/// marked root of the pairs, ascending; the first has the number of the symbol's filter, the second
/// its rank, from 0 to 7. Each rule falls weakly, then each pair does, and last some pair falls
/// strictly. The budget is that of `first_solution`.
///
/// `stop` is asked before each prefix of values.
pub fn find_lpo<P: Stop>(
    alloc: Global,
    trs: &Trs,
    all: &[DpPair],
    problem: &[u32],
    budget: u64,
    stop: &mut P,
) -> Result<Search<Lpo>, OutOfMemory>
    requires all { all.now ≡ placed_pairs trs.now.rules }
    requires ascending { IsStrictlyIncreasing problem.now }
    requires numbers { All (λ n. n < length (dependency_pairs trs.now.rules)) problem.now }
    ensures answer { IfOk result (IsFinding
        (λ order. FindsLpo trs.now problem.now budget order)
        (FailsOrder trs.now problem.now (lpo_search trs.now) (IsNotThere budget))
        (FailsOrder trs.now problem.now (lpo_search trs.now) (IsSpent budget))
        (P.stops stop.old < P.stops stop.new)) }
    ensures continues { Continues P.Stop stop.old stop.new }
{
    let pairs = Pairs::of(alloc, trs, all)?;
    find_lpo_in(alloc, trs, &pairs, problem, budget, stop)
}

/// `find_lpo` where the pairs of the system are at hand, as they are for many problems of one
/// system.
pub fn find_lpo_in<P: Stop>(
    alloc: Global,
    trs: &Trs,
    pairs: &Pairs,
    problem: &[u32],
    budget: u64,
    stop: &mut P,
) -> Result<Search<Lpo>, OutOfMemory>
    requires pairs { pairs.now ≡ dependency_pairs trs.now.rules }
    requires ascending { IsStrictlyIncreasing problem.now }
    requires numbers { All (λ n. n < length (dependency_pairs trs.now.rules)) problem.now }
    ensures answer { IfOk result (IsFinding
        (λ order. FindsLpo trs.now problem.now budget order)
        (FailsOrder trs.now problem.now (lpo_search trs.now) (IsNotThere budget))
        (FailsOrder trs.now problem.now (lpo_search trs.now) (IsSpent budget))
        (P.stops stop.old < P.stops stop.new)) }
    ensures continues { Continues P.Stop stop.old stop.new }
{
    let over = OrderProblem::of(alloc, trs, pairs, problem)?;
    let marked = lend_marked(alloc, &over.marked)?;
    search_orders(
        alloc,
        over.arities,
        &over.symbols,
        &over.rules,
        &marked,
        budget,
        stop,
    )
}

/// The order over these symbols by which the rules and the marked pairs fall.
fn search_orders<P: Stop>(
    alloc: Global,
    arities: &[u8],
    symbols: &[u32],
    rules: &[LentRule],
    pairs: &[LentRule],
    budget: u64,
    stop: &mut P,
) -> Result<Search<Lpo>, OutOfMemory>
    requires { IsSearchable symbols.now rules.now pairs.now }
    ensures answer { IfOk result (IsFinding
        (λ order. IsOrderOver (path_entry arities.now)
        (path_search arities.now symbols.now rules.now pairs.now) budget symbols.now order)
        (IsNotThere budget (puzzle_of (path_search arities.now symbols.now rules.now pairs.now)))
        (IsSpent budget (puzzle_of (path_search arities.now symbols.now rules.now pairs.now)))
        (P.stops stop.old < P.stops stop.new)) }
    ensures continues { Continues P.Stop stop.old stop.new }
{
    let places = SymbolPlaces::of(alloc, symbols)?;
    let filters = symbol_filters(alloc, arities, symbols)?;
    let space = LpoSpace {
        arities,
        symbols,
        places: &places,
        filters: &filters,
        rules,
        pairs,
    };
    let mut kept = KeptSides::new(alloc)?;
    find_first_by(alloc, &space, &mut kept, budget, stop)
}
