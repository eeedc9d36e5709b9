//! The symbols that an order needs values for.
ghost use Rattle.std.specs.Prelude.{◌≡◌, ◌<◌, ◌+◌, ◌++◌, ℕ, All, map, IfOk, OnOk};
ghost use Rattle.trs_defs.specs.Member.{In};
ghost use Rattle.trs_core.specs.View.{tree};
ghost use Rattle.dp_core.specs.Symbols.{symbols_of, symbols_of_rules};
ghost use Rattle.dp_core.specs.SubtermConditions.{roots_of};
ghost use Rattle.order_search.specs.Ascending.{AreAscending};
ghost use Rattle.order_search.specs.OrderRow.{AreSymbols};
ghost use Rattle.order_search.specs.SymbolSets.{Adds, HasOnly};

use crate::roots::roots;
use crate::symbol_sets::{add, list_members};
use dp_core::{MARK, Sides};
use std::alloc::Global;
use trs_core::{OutOfMemory, Rule, Term};

/// The symbols of the rules, ascending, and behind them the marked roots of the pairs, ascending.
pub fn order_symbols(
    alloc: Global,
    rules: &[Rule],
    pairs: &[Sides],
) -> Result<Vec<u32>, OutOfMemory>
    requires { (f : ℕ) → In f (roots_of pairs.now) → f < 4096 }
    ensures { IfOk result (λ symbols.
        AreSymbols (symbols_of_rules rules.now) pairs.now symbols.items) }
{
    let mut symbols = rule_symbols(alloc, rules)?;
    let roots = roots(alloc, pairs)?;
    add_marked(&mut symbols, &roots)?;
    Ok(symbols)
}

/// Puts the marked symbols behind others.
pub(crate) fn add_marked(symbols: &mut Vec<u32>, roots: &[u32]) -> Result<(), OutOfMemory>
    requires { All (λ f. f < 4096) roots.now }
    ensures { OnOk result
        (symbols.new.items ≡ symbols.old.items ++ map (λ f. f + 4096) roots.now) }
{
    for f in roots {
        symbols.push(*f + MARK)?;
    }
    Ok(())
}

fn rule_symbols(alloc: Global, rules: &[Rule]) -> Result<Vec<u32>, OutOfMemory>
    ensures { IfOk result (λ symbols. AreAscending (symbols_of_rules rules.now) symbols.items) }
{
    let set = symbol_set(alloc, rules)?;
    list_members(alloc, &set)
}

pub(crate) fn symbol_set(alloc: Global, rules: &[Rule]) -> Result<Vec<bool>, OutOfMemory>
    ensures { IfOk result (λ set. HasOnly set.items (symbols_of_rules rules.now)) }
{
    let mut set = Vec::new(alloc);
    for rule in rules {
        add_sides(&mut set, rule)?;
    }
    Ok(set)
}

fn add_sides(set: &mut Vec<bool>, rule: &Rule) -> Result<(), OutOfMemory>
    ensures { OnOk result (Adds set.old.items set.new.items
        (symbols_of rule.now.left ++ symbols_of rule.now.right)) }
{
    add_symbols(set, &rule.left)?;
    add_symbols(set, &rule.right)
}

/// Puts the symbols of a term into a set.
pub(crate) fn add_symbols(set: &mut Vec<bool>, t: &Term) -> Result<(), OutOfMemory>
    ensures { OnOk result (Adds set.old.items set.new.items (symbols_of (tree t.now))) }
{
    match t {
        Term::Var(_) => Ok(()),
        Term::App(f, args) => {
            add(set, *f)?;
            for arg in &args.items {
                add_symbols(set, arg)?;
            }
            Ok(())
        }
    }
}
