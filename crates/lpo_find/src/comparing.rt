//! Comparisons by a path order, as tests.
ghost use Rattle.std.specs.Prelude.{◌≡◌, IfSome};
ghost use Rattle.order_search.specs.OrderSpace.{some_falls};
ghost use Rattle.lpo_find.specs.LpoSpace.{path_weak, path_strict};
ghost use Rattle.lpo_find.specs.KeptSides.{AreSides};

use order_search::LentRule;
use path_lpo::{Precedence, SharedPair, is_strict, is_weak, is_weak_shared, is_weak_sharing};

/// Whether the left side is the right one, or greater.
pub(crate) fn falls_weakly<P: Precedence>(order: &P, rule: &LentRule) -> bool
    ensures { result ≡ path_weak (P.ranks order.now) (P.filters order.now)
        rule.now.left rule.now.right }
{
    is_weak(order, rule.left, rule.right)
}

/// The same, with what large sides share, where it is to be kept.
pub(crate) fn falls_weakly_sharing<P: Precedence>(
    order: &P,
    rule: &LentRule,
) -> (bool, Option<SharedPair>)
    ensures falls { result.0 ≡ path_weak (P.ranks order.now) (P.filters order.now)
        rule.now.left rule.now.right }
    ensures shared { IfSome result.1 (AreSides (P.filters order.now) rule.now) }
{
    is_weak_sharing(order, rule.left, rule.right)
}

/// The same of a rule whose sides share this, which costs less.
pub(crate) fn shared_falls_weakly<P: Precedence>(
    order: &P,
    rule: &LentRule,
    shared: &SharedPair,
) -> bool
    requires { AreSides (P.filters order.now) rule.now shared.now }
    ensures { result ≡ path_weak (P.ranks order.now) (P.filters order.now)
        rule.now.left rule.now.right }
{
    is_weak_shared(order, rule.left, rule.right, shared)
}

/// Whether the left side is greater.
fn falls_strictly<P: Precedence>(order: &P, rule: &LentRule) -> bool
    ensures { result ≡ path_strict (P.ranks order.now) (P.filters order.now)
        rule.now.left rule.now.right }
{
    is_strict(order, rule.left, rule.right)
}

/// Whether some left side is greater than its right side.
pub(crate) fn some_falls_strictly<P: Precedence>(order: &P, rules: &[LentRule]) -> bool
    ensures { result ≡ some_falls (path_strict (P.ranks order.now) (P.filters order.now))
        rules.now }
{
    for rule in rules {
        if falls_strictly(order, rule) {
            return true;
        }
    }
    false
}
