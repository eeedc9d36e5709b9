ghost use Rattle.dp_core.specs.Laws.{AllPairsArePlaced, PairsArePlacedInOrder};
ghost use Rattle.dp_core.specs.Laws.{AllPairsConclude, SubtermStepsConclude};
ghost use Rattle.dp_core.specs.Laws.{SubtermStepsAnswerOnce, SubtermStepsLeaveNumbers};
ghost use Rattle.dp_core.specs.Laws.{PairStepsConclude, PairStepsAnswerOnce, PairStepsLeaveNumbers};
ghost use Rattle.dp_core.specs.PairConditions.{comparing_by};

use pair_order::{ReductionPair, remove_pairs_with_entries};
use pair_theory::{dependency_pairs_suffice, subterm_criterion};

/// A law, with nothing to run: the placed pairs of a system are its dependency pairs, in order.
pub fn placed_pairs_are_the_pairs()
    ensures all { AllPairsArePlaced }
    ensures order { PairsArePlacedInOrder }
{}

/// A law, with nothing to run: a system terminates if the problem of all its pairs, by their
/// numbers, is finite. (Arts and Giesl, 2000.)
pub fn all_pairs_conclude()
    ensures { AllPairsConclude }
{
    dependency_pairs_suffice();
}

/// A law, with nothing to run: a problem is finite if that of the pairs that remain by the subterm
/// criterion is, its conditions have one answer, and the numbers that remain ascend with those of
/// the problem. (Hirokawa and Middeldorp, 2007.)
pub fn subterm_steps_conclude()
    ensures conclude { SubtermStepsConclude }
    ensures once { SubtermStepsAnswerOnce }
    ensures numbers { SubtermStepsLeaveNumbers }
{
    dependency_pairs_suffice();
    subterm_criterion();
}

/// A law, with nothing to run: the same for the steps by a reduction pair. It concludes where the
/// order speaks over the system's arity table. (Arts and Giesl, 2000.)
pub fn pair_steps_conclude<O: ReductionPair>(order: &O)
    ensures conclude { PairStepsConclude (comparing_by
        (O.has order.now) (O.is_too_big order.now) (O.is_weak order.now) (O.is_strict order.now))
        (O.speaks_over order.now) }
    ensures once { PairStepsAnswerOnce (comparing_by
        (O.has order.now) (O.is_too_big order.now) (O.is_weak order.now) (O.is_strict order.now)) }
    ensures numbers { PairStepsLeaveNumbers (comparing_by
        (O.has order.now) (O.is_too_big order.now) (O.is_weak order.now) (O.is_strict order.now)) }
{
    dependency_pairs_suffice();
    remove_pairs_with_entries(order);
}
