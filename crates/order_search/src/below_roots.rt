//! The symbols that an order needs values for where only some rules count: theirs, and those below
//! the roots of the pairs.
ghost use Rattle.std.specs.Prelude.{◌<◌, ◌++◌, ℕ, IfOk, OnOk};
ghost use Rattle.trs_defs.specs.Member.{In};
ghost use Rattle.dp_core.specs.Symbols.{symbols_of_all, symbols_of_rules, symbols_below_roots};
ghost use Rattle.dp_core.specs.SubtermConditions.{roots_of};
ghost use Rattle.order_search.specs.Ascending.{AreAscending};
ghost use Rattle.order_search.specs.OrderRow.{AreSymbols};
ghost use Rattle.order_search.specs.SymbolSets.{Adds};

use crate::roots::roots;
use crate::symbol_sets::list_members;
use crate::symbols::{add_marked, add_symbols, symbol_set};
use dp_core::{Side, Sides};
use std::alloc::Global;
use trs_core::{OutOfMemory, Rule};

/// The symbols of the rules and those below the roots of the pairs, ascending, and behind them the
/// marked roots of the pairs, ascending.
pub fn symbols_with_sides(
    alloc: Global,
    rules: &[Rule],
    pairs: &[Sides],
) -> Result<Vec<u32>, OutOfMemory>
    requires { (f : ℕ) → In f (roots_of pairs.now) → f < 4096 }
    ensures { IfOk result (λ symbols. AreSymbols
        (symbols_of_rules rules.now ++ symbols_below_roots pairs.now) pairs.now symbols.items) }
{
    let mut symbols = plain_symbols(alloc, rules, pairs)?;
    let roots = roots(alloc, pairs)?;
    add_marked(&mut symbols, &roots)?;
    Ok(symbols)
}

fn plain_symbols(alloc: Global, rules: &[Rule], pairs: &[Sides]) -> Result<Vec<u32>, OutOfMemory>
    ensures { IfOk result (λ symbols. AreAscending
        (symbols_of_rules rules.now ++ symbols_below_roots pairs.now) symbols.items) }
{
    let mut set = symbol_set(alloc, rules)?;
    add_below_roots(&mut set, pairs)?;
    list_members(alloc, &set)
}

/// Puts the symbols below the roots of pairs into a set.
fn add_below_roots(set: &mut Vec<bool>, pairs: &[Sides]) -> Result<(), OutOfMemory>
    ensures { OnOk result (Adds set.old.items set.new.items (symbols_below_roots pairs.now)) }
{
    for pair in pairs {
        add_pair(set, pair)?;
    }
    Ok(())
}

fn add_pair(set: &mut Vec<bool>, pair: &Sides) -> Result<(), OutOfMemory>
    ensures { OnOk result (Adds set.old.items set.new.items
        (symbols_of_all pair.now.from.args ++ symbols_of_all pair.now.to.args)) }
{
    add_arguments(set, &pair.from)?;
    add_arguments(set, &pair.to)
}

fn add_arguments(set: &mut Vec<bool>, side: &Side) -> Result<(), OutOfMemory>
    ensures { OnOk result (Adds set.old.items set.new.items (symbols_of_all side.now.args)) }
{
    let args = side.args;
    for arg in &args.items {
        add_symbols(set, arg)?;
    }
    Ok(())
}
