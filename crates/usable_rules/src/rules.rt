ghost use Rattle.std.specs.Prelude.{ℕ, ◌≡◌, ◌<◌, All, IfOk, List, length};
ghost use Rattle.pair_theory.specs.DependencyPair.{DependencyPair, dependency_pairs};
ghost use Rattle.dp_core.specs.PlacedPairs.{placed_pairs};
ghost use Rattle.dp_core.specs.Numbered.{ArePairsOf};
ghost use Rattle.usable_rules.specs.AreUsable.{AreUsableRules};

use crate::closing::{close, mark_pairs};
use crate::numbering::numbers_with_flag;
use dp_core::{DpPair, Pairs};
use std::alloc::Global;
use term_pool::RulesByRoot;
use trs_core::{OutOfMemory, Trs};

/// The numbers of the usable rules of a problem: those whose root is a usable symbol. Each right
/// side is walked at most once. (Arts and Giesl, 2000; Hirokawa and Middeldorp, 2007.)
pub fn usable(
    alloc: Global,
    trs: &Trs,
    all: &[DpPair],
    problem: &[u32],
) -> Result<Vec<u32>, OutOfMemory>
    requires all { all.now ≡ placed_pairs trs.now.rules }
    requires numbers { All (λ n. n < length (dependency_pairs trs.now.rules)) problem.now }
    ensures usable { IfOk result (λ numbers. (pairs : List DependencyPair) →
        ArePairsOf (dependency_pairs trs.now.rules) problem.now pairs →
        AreUsableRules trs.now.rules pairs numbers.items) }
{
    let pairs = Pairs::of(alloc, trs, all)?;
    usable_for(alloc, trs, &pairs, problem)
}

/// The same, where the pairs of the system are prepared.
pub fn usable_for(
    alloc: Global,
    trs: &Trs,
    pairs: &Pairs,
    problem: &[u32],
) -> Result<Vec<u32>, OutOfMemory>
    requires numbers { All (λ n. n < length pairs.now) problem.now }
    ensures usable { IfOk result (λ numbers. (taken : List DependencyPair) →
        ArePairsOf pairs.now problem.now taken →
        AreUsableRules trs.now.rules taken numbers.items) }
{
    let by_root = RulesByRoot::new(alloc, trs)?;
    let mut flags = vec![in alloc; false; trs.arities().len()]?;
    let mut found = Vec::new(alloc);
    mark_pairs(pairs.sides(), problem, &mut flags, &mut found)?;
    close(&by_root, &mut flags, &mut found)?;
    let numbers = numbers_with_flag(alloc, trs.rules(), &flags)?;
    Ok(numbers)
}
