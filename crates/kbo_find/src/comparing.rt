//! Comparisons by a Knuth-Bendix order, as tests that are false where a term weighs too much.
ghost use Rattle.std.specs.Prelude.{◌≡◌, ◌≤◌, drop, length, map, slice_get};
ghost use Rattle.order_search.specs.OrderSpace.{some_falls};
ghost use Rattle.kbo_find.specs.KnuthTest.{knuth_weak, knuth_strict};
ghost use Rattle.kbo_find.specs.KboPlaces.{falls_by};
ghost use Rattle.kbo_find.specs.Balanced.{rule_of};

use crate::balance::Balance;
use kbo_order::{Weighting, is_strict, is_weak};
use order_search::LentRule;

/// Whether the rule or pair of this number falls weakly; behind them, whether some pair falls
/// strictly. The pairs stand behind so many rules.
pub(crate) fn falls<W: Weighting>(
    order: &W,
    balances: &[Balance],
    rules: usize,
    number: usize,
) -> bool
    requires { rules ≤ length balances.now }
    ensures { result ≡ falls_by (W.weights order.now) (W.ranks order.now)
        (drop rules (map rule_of balances.now)) (slice_get (map rule_of balances.now) number) }
{
    match balances.get(number) {
        Some(balance) => falls_weakly(order, balance),
        None => some_falls_strictly(order, &balances[rules..]),
    }
}

/// Whether the left side is the right one, or greater.
fn falls_weakly<W: Weighting>(order: &W, balance: &Balance) -> bool
    ensures { result ≡ knuth_weak (W.weights order.now) (W.ranks order.now)
        (rule_of balance.now).left (rule_of balance.now).right }
{
    match balance.tells(order) {
        Some(greater) => greater,
        None => is_weakly_above(order, balance.rule),
    }
}

/// Whether the left side is greater.
fn falls_strictly<W: Weighting>(order: &W, balance: &Balance) -> bool
    ensures { result ≡ knuth_strict (W.weights order.now) (W.ranks order.now)
        (rule_of balance.now).left (rule_of balance.now).right }
{
    match balance.tells(order) {
        Some(greater) => greater,
        None => is_above(order, balance.rule),
    }
}

/// Whether the left side is the right one, or greater, by a walk over both.
fn is_weakly_above<W: Weighting>(order: &W, rule: &LentRule) -> bool
    ensures { result ≡ knuth_weak (W.weights order.now) (W.ranks order.now)
        rule.now.left rule.now.right }
{
    match is_weak(order, rule.left, rule.right) {
        Ok(answer) => answer,
        Err(_) => false,
    }
}

/// Whether the left side is greater, by a walk over both.
fn is_above<W: Weighting>(order: &W, rule: &LentRule) -> bool
    ensures { result ≡ knuth_strict (W.weights order.now) (W.ranks order.now)
        rule.now.left rule.now.right }
{
    match is_strict(order, rule.left, rule.right) {
        Ok(answer) => answer,
        Err(_) => false,
    }
}

/// Whether some left side is greater than its right side.
fn some_falls_strictly<W: Weighting>(order: &W, balances: &[Balance]) -> bool
    ensures { result ≡ some_falls (knuth_strict (W.weights order.now) (W.ranks order.now))
        (map rule_of balances.now) }
{
    for balance in balances {
        if falls_strictly(order, balance) {
            return true;
        }
    }
    false
}
