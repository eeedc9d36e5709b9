ghost use Rattle.dp_core.specs.PairConditions.{comparing_by};
ghost use Rattle.usable_rules.specs.Laws.{UsableStepsConclude, UsableStepsAnswerOnce};
ghost use Rattle.usable_rules.specs.Laws.{UsableStepsLeaveNumbers};

use dp_core::PairingOrder;
use order_theory::remove_by_usable_rules;
use pair_theory::dependency_pairs_suffice;

/// A law, with nothing to run: a problem is finite if that of the pairs that remain by an order that
/// makes the usable rules weak is, the conditions have one answer, and the numbers that remain
/// ascend with those of the problem. (Hirokawa and Middeldorp, 2007; Giesl, Thiemann,
/// Schneider-Kamp and Falke, 2006.)
pub fn usable_steps_conclude<O: PairingOrder>(order: &O)
    ensures conclude { UsableStepsConclude (comparing_by
        (O.has order.now) (O.is_too_big order.now) (O.is_weak order.now) (O.is_strict order.now)) }
    ensures once { UsableStepsAnswerOnce (comparing_by
        (O.has order.now) (O.is_too_big order.now) (O.is_weak order.now) (O.is_strict order.now)) }
    ensures numbers { UsableStepsLeaveNumbers (comparing_by
        (O.has order.now) (O.is_too_big order.now) (O.is_weak order.now) (O.is_strict order.now)) }
{
    dependency_pairs_suffice();
    remove_by_usable_rules(order);
}
