ghost use Rattle.std.specs.Prelude.{◌≡◌, ◌≤◌, IfOk, length};
ghost use Rattle.pair_theory.specs.DependencyPair.{dependency_pairs};
ghost use Rattle.dp_core.specs.PlacedPairs.{placed_pairs};
ghost use Rattle.dp_core.specs.Numbered.{numbers_from};

use crate::DpPair;
use crate::laws::placed_pairs_are_the_pairs;
use std::alloc::Global;
use trs_core::{OutOfMemory, Rule, Trs, systems_are_valid};

/// The numbers of all pairs of a system, from 0: the problem that a step to dependency pairs
/// leaves.
pub fn pair_numbers(alloc: Global, trs: &Trs, all: &[DpPair]) -> Result<Vec<u32>, OutOfMemory>
    requires { all.now ≡ placed_pairs trs.now.rules }
    ensures { IfOk result (λ numbers.
        numbers.items ≡ numbers_from 0 (dependency_pairs trs.now.rules)) }
{
    systems_are_valid(trs);
    placed_pairs_are_the_pairs();
    let mut numbers = Vec::with_capacity(alloc, all.len())?;
    for n in 0..all.len() {
        numbers.push(n as u32)?;
    }
    Ok(numbers)
}

/// The numbers of all rules.
pub(crate) fn rule_numbers(alloc: Global, rules: &[Rule]) -> Result<Vec<u32>, OutOfMemory>
    requires { length rules.now ≤ 4095 }
    ensures { IfOk result (λ numbers. numbers.items ≡ numbers_from 0 rules.now) }
{
    let mut numbers = Vec::with_capacity(alloc, rules.len())?;
    for n in 0..rules.len() {
        numbers.push(n as u32)?;
    }
    Ok(numbers)
}
