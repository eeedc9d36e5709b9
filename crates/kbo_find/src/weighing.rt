//! Rules and pairs with how often symbols and variables occur in their sides.
ghost use Rattle.std.specs.Prelude.{◌≡◌, ◌++◌, map, IfOk, OnOk};
ghost use Rattle.kbo_find.specs.Balanced.{rule_of};

use crate::balance::Balance;
use crate::left_sides::left_side;
use order_search::LentRule;
use std::alloc::Global;
use trs_core::OutOfMemory;

/// The rules, and the pairs behind them.
pub(crate) fn balances<'a>(
    alloc: Global,
    rules: &'a [LentRule<'a>],
    pairs: &'a [LentRule<'a>],
) -> Result<Vec<Balance<'a>>, OutOfMemory>
    ensures { IfOk result (λ balances. map rule_of balances.items ≡ rules.now ++ pairs.now) }
{
    let mut balances = Vec::with_capacity(alloc, rules.len())?;
    add_balances(alloc, &mut balances, rules)?;
    add_balances(alloc, &mut balances, pairs)?;
    Ok(balances)
}

fn add_balances<'a>(
    alloc: Global,
    balances: &mut Vec<Balance<'a>>,
    rules: &'a [LentRule<'a>],
) -> Result<(), OutOfMemory>
    ensures { OnOk result
        (map rule_of balances.new.items ≡ map rule_of balances.old.items ++ rules.now) }
{
    let mut last = None;
    for rule in rules {
        let left = left_side(alloc, last, rule.left)?;
        balances.push(Balance::of(alloc, rule, &left)?)?;
        last = Some(left);
    }
    Ok(())
}
