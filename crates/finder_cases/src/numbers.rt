//! The numbers of all pairs.
ghost use Rattle.std.specs.Prelude.{◌≡◌, ◌<◌, All, IfOk, length};
ghost use Rattle.std.specs.List.Sorted.{IsStrictlyIncreasing};
ghost use Rattle.pair_theory.specs.DependencyPair.{dependency_pairs};
ghost use Rattle.dp_core.specs.PlacedPairs.{placed_pairs};

use dp_core::{DpPair, pair_numbers};
use std::alloc::Global;
use trs_core::{OutOfMemory, Trs};

/// The numbers of all pairs, ascending.
pub fn all_numbers(alloc: Global, trs: &Trs, all: &[DpPair]) -> Result<Vec<u32>, OutOfMemory>
    requires { all.now ≡ placed_pairs trs.now.rules }
    ensures ascending { IfOk result (λ numbers. IsStrictlyIncreasing numbers.items) }
    ensures within { IfOk result (λ numbers.
        All (λ n. n < length (dependency_pairs trs.now.rules)) numbers.items) }
{
    pair_numbers(alloc, trs, all)
}
