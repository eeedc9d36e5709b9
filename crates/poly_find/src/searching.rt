//! The search over given symbols, rules and marked pairs.
ghost use Rattle.std.specs.Prelude.{◌<◌, ◌≤◌, ◌+◌, ◌^◌, All, IfOk, length};
ghost use Rattle.assign_search.specs.Continues.{Continues};
ghost use Rattle.order_search.specs.Outcome.{IsFinding, IsNotThere, IsSpent};
ghost use Rattle.order_search.specs.Slots.{puzzle_of};
ghost use Rattle.order_search.specs.OrderOver.{IsOrderOver};
ghost use Rattle.order_search.specs.Distinct.{AreDistinct};
ghost use Rattle.poly_find.specs.PolyRow.{poly_search, poly_entry};

use crate::owners::owners;
use crate::sizes::small_ones;
use crate::space::PolySpace;
use crate::spans::spans;
use crate::subterms::subterms_of_rules;
use assign_search::{Search, Stop};
use order_search::placing::SymbolPlaces;
use order_search::{LentRule, find_first};
use poly_lin::LinTable;
use std::alloc::Global;
use trs_core::OutOfMemory;

/// The interpretation of these symbols by which the rules and the marked pairs fall weakly, and
/// some pair strictly: the first with values 0 to 2, a slot for the constant and one for the
/// coefficient of each argument of a symbol. The budget is that of `first_solution`; a test of
/// values takes memory only for a rule whose subterms are listed.
pub(crate) fn search_linear<'a, P: Stop>(
    alloc: Global,
    arities: &'a [u8],
    symbols: &'a [u32],
    rules: &'a [LentRule<'a>],
    pairs: &'a [LentRule<'a>],
    budget: u64,
    stop: &mut P,
) -> Result<Search<LinTable>, OutOfMemory>
    requires distinct { AreDistinct symbols.now }
    requires small_symbols { All (λ f. f < 8192) symbols.now }
    requires few_symbols { length symbols.now ≤ 8192 }
    requires few_falling { length rules.now + length pairs.now + 1 < 2 ^ 31 }
    ensures answer { IfOk result (IsFinding
        (λ order. IsOrderOver (poly_entry arities.now)
        (poly_search arities.now symbols.now rules.now pairs.now)
        budget symbols.now order)
        (IsNotThere budget (puzzle_of (poly_search arities.now symbols.now rules.now pairs.now)))
        (IsSpent budget (puzzle_of (poly_search arities.now symbols.now rules.now pairs.now)))
        (P.stops stop.old < P.stops stop.new)) }
    ensures continues { Continues P.Stop stop.old stop.new }
{
    let owners = owners(alloc, arities, symbols)?;
    let spans = spans(alloc, arities, symbols)?;
    let small = small_ones(alloc, rules, pairs)?;
    let subterms = subterms_of_rules(alloc, &small, rules)?;
    let places = SymbolPlaces::of(alloc, symbols)?;
    let space = PolySpace {
        arities,
        symbols,
        places: &places,
        owners: &owners,
        spans: &spans,
        rules,
        pairs,
        small: &small,
        subterms: &subterms,
    };
    find_first(alloc, &space, budget, stop)
}
