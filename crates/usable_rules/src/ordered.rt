ghost use Rattle.std.specs.Prelude.{◌≡◌, ◌<◌, All, length};
ghost use Rattle.pair_theory.specs.DependencyPair.{dependency_pairs};
ghost use Rattle.rewrite_core.specs.Check.{AnswersBy};
ghost use Rattle.dp_core.specs.PlacedPairs.{placed_pairs};
ghost use Rattle.dp_core.specs.PairConditions.{comparing_by};
ghost use Rattle.usable_rules.specs.UsableConditions.{usable_conditions};

use crate::lacking::lacking_below_roots;
use crate::rules::usable_for;
use dp_core::{DpPair, PairingOrder, Pairs, lacking_in_rules};
use rewrite_core::CheckFault;
use std::alloc::Global;
use trs_core::Trs;

/// The pairs of a problem that remain by an order that makes the usable rules weak, for one step
/// alone. It is refused as `pair_check` is, where only the usable rules have to be weak, and entries
/// are asked of their symbols and of those below the roots of the pairs' sides. Rules keep their
/// numbers in the system. (Hirokawa and Middeldorp, 2007; Giesl, Thiemann, Schneider-Kamp and Falke,
/// 2006.)
pub fn usable_check<O: PairingOrder>(
    alloc: Global,
    trs: &Trs,
    all: &[DpPair],
    problem: &[u32],
    order: &O,
) -> Result<Vec<u32>, CheckFault>
    requires all { all.now ≡ placed_pairs trs.now.rules }
    requires numbers { All (λ n. n < length (dependency_pairs trs.now.rules)) problem.now }
    ensures answers { AnswersBy (λ left. left.items) (usable_conditions (comparing_by
        (O.has order.now) (O.is_too_big order.now) (O.is_weak order.now) (O.is_strict order.now))
        trs.now.rules (dependency_pairs trs.now.rules) problem.now) result }
{
    let pairs = Pairs::of(alloc, trs, all)?;
    prepared_usable_check(alloc, trs, &pairs, problem, order)
}

/// The same, where the pairs of the system are prepared. It looks at the sides of the problem's
/// pairs and at the usable rules alone, beside a table of the rules by their roots.
pub fn prepared_usable_check<O: PairingOrder>(
    alloc: Global,
    trs: &Trs,
    pairs: &Pairs,
    problem: &[u32],
    order: &O,
) -> Result<Vec<u32>, CheckFault>
    requires pairs { pairs.now ≡ dependency_pairs trs.now.rules }
    requires numbers { All (λ n. n < length pairs.now) problem.now }
    ensures answers { AnswersBy (λ left. left.items) (usable_conditions (comparing_by
        (O.has order.now) (O.is_too_big order.now) (O.is_weak order.now) (O.is_strict order.now))
        trs.now.rules pairs.now problem.now) result }
{
    let usable = usable_for(alloc, trs, pairs, problem)?;
    let in_rules = lacking_in_rules(order, trs.rules(), &usable);
    let lacking = lacking_below_roots(order, in_rules, pairs.sides(), problem);
    pairs.removal_check(alloc, trs, problem, order, &usable, lacking)
}
