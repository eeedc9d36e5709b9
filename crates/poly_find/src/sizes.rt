//! Which terms are so small that no coefficient of theirs is big.
ghost use Rattle.std.specs.Prelude.{◌≡◌, ◌++◌, ◌-◌, ◌^◌, min, map, nat_lt, IfOk, OnOk};
ghost use Rattle.trs_core.specs.View.{tree};
ghost use Rattle.poly_find.specs.SmallTerms.{greatest, has_small_sides};

use order_search::LentRule;
use std::alloc::Global;
use trs_core::{GREATEST_NUMBER, OutOfMemory, Term};

/// Of each rule, and of each pair behind them, whether both sides are small.
pub(crate) fn small_ones(
    alloc: Global,
    rules: &[LentRule],
    pairs: &[LentRule],
) -> Result<Vec<bool>, OutOfMemory>
    ensures { IfOk result (λ small. small.items ≡ map has_small_sides (rules.now ++ pairs.now)) }
{
    let mut small = Vec::with_capacity(alloc, rules.len())?;
    add_flags(&mut small, rules)?;
    add_flags(&mut small, pairs)?;
    Ok(small)
}

fn add_flags(small: &mut Vec<bool>, rules: &[LentRule]) -> Result<(), OutOfMemory>
    ensures { OnOk result (small.new.items ≡ small.old.items ++ map has_small_sides rules.now) }
{
    for rule in rules {
        small.push(has_small_sides(rule))?;
    }
    Ok(())
}

fn has_small_sides(rule: &LentRule) -> bool
    ensures { result ≡ has_small_sides rule.now }
{
    is_small(rule.left) && is_small(rule.right)
}

fn is_small(t: &Term) -> bool
    ensures { result ≡ nat_lt (greatest (tree t.now)) (2 ^ 63) }
{
    greatest(t) <= GREATEST_NUMBER
}

/// The value of the term's polynomial where all coefficients are 2 and variables stand for 1, or
/// the last `u64` where it is greater.
fn greatest(t: &Term) -> u64
    ensures { result ≡ min (greatest (tree t.now)) (2 ^ 64 - 1) }
{
    match t {
        Term::Var(_) => 1,
        Term::App(_, args) => {
            let mut sum: u64 = 1;
            for arg in &args.items {
                sum = sum.saturating_add(greatest(arg));
            }
            sum.saturating_mul(2)
        }
    }
}
