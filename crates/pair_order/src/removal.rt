ghost use Rattle.std.specs.Prelude.{ℕ, List, ◌⊎◌};
ghost use Rattle.trs_defs.specs.Member.{In};
ghost use Rattle.trs_defs.specs.System.{RewriteRule, System, IsSystem};
ghost use Rattle.pair_theory.specs.Marked.{mark};
ghost use Rattle.pair_theory.specs.DependencyPair.{DependencyPair};
ghost use Rattle.pair_theory.specs.PairProblem.{IsFiniteProblem, IsPair};
ghost use Rattle.pair_theory.specs.ReductionPair.{marked_rule};
ghost use Rattle.pair_order.specs.Spoken.{HasSideEntries};

use crate::ReductionPair;
use pair_theory::remove_pairs;

/// Removal of pairs by a reduction pair that speaks of the system's arity table and has entries for
/// the symbols of the rules and the pairs: where rules are weak, and each pair is weak and stays or
/// is strict, the pairs that stay suffice.
pub fn remove_pairs_with_entries<O: ReductionPair>(order: &O)
    ensures { (system : System) (pairs stays : List DependencyPair) →
        IsSystem system → ((p : DependencyPair) → In p pairs → IsPair system.arities p) →
        O.speaks_over order.now system.arities →
        ((r : RewriteRule) → In r system.rules → HasSideEntries (O.has order.now) r) →
        ((p : DependencyPair) → In p pairs → HasSideEntries (O.has order.now) (marked_rule p)) →
        ((r : RewriteRule) → In r system.rules → O.is_weak order.now r.left r.right) →
        ((p : DependencyPair) → In p pairs →
        (In p stays × O.is_weak order.now (mark p.from) (mark p.to))
        ⊎ O.is_strict order.now (mark p.from) (mark p.to)) →
        IsFiniteProblem system stays → IsFiniteProblem system pairs }
{
    remove_pairs(order)
}
