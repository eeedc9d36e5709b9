ghost use Rattle.std.specs.Prelude.{◌↔◌, IsTrue, IfOk, IfSome};
ghost use Rattle.trs_core.specs.View.{tree};
ghost use Rattle.order_theory.specs.ArgumentFilter.{filtered, PathWeak, PathStrict};
ghost use Rattle.pair_order.specs.Compared.{IsDecreaseOf};
ghost use Rattle.path_lpo.specs.Comparison.{IsComparison};
ghost use Rattle.path_lpo.specs.SharedPair.{ArePair, IsParted, left_tree, right_tree};

use crate::Precedence;
use crate::comparison::Comparison;
use crate::effort::{Effort, Limited, Unlimited};
use crate::large::is_large;
use crate::pair::SharedPair;
use crate::unshared::{Room, Unshared};
use crate::walking::compare;
use pair_order::Decrease;
use std::alloc::Global;
use trs_core::Term;

/// So many pairs are compared before the nodes of large terms are counted.
const FEW_PAIRS: u64 = 1024;

/// Whether the first filtered term is the second, or greater.
pub fn is_weak<P: Precedence>(order: &P, s: &Term, t: &Term) -> bool
    ensures { IsTrue result
        ↔ PathWeak (P.ranks order.now) (P.filters order.now) (tree s.now) (tree t.now) }
{
    compare_terms(order, s, t).is_at_least()
}

/// The same, with what large terms share where that was found out, if it takes little memory.
pub fn is_weak_sharing<P: Precedence>(order: &P, s: &Term, t: &Term) -> (bool, Option<SharedPair>)
    ensures weak { IsTrue result.0
        ↔ PathWeak (P.ranks order.now) (P.filters order.now) (tree s.now) (tree t.now) }
    ensures shared { IfSome result.1 (ArePair (filtered (P.filters order.now) (tree s.now))
        (filtered (P.filters order.now) (tree t.now))) }
{
    let (comparison, shared) = compare_sharing(order, s, t);
    (comparison.is_at_least(), shared)
}

/// The same of two terms that share this, which costs less.
pub fn is_weak_shared<P: Precedence>(order: &P, s: &Term, t: &Term, shared: &SharedPair) -> bool
    requires { ArePair (filtered (P.filters order.now) (tree s.now))
        (filtered (P.filters order.now) (tree t.now)) shared.now }
    ensures { IsTrue result
        ↔ PathWeak (P.ranks order.now) (P.filters order.now) (tree s.now) (tree t.now) }
{
    match compare_pair(order, shared) {
        Some(comparison) => comparison.is_at_least(),
        None => is_weak(order, s, t),
    }
}

/// Whether the first filtered term is greater than the second.
pub fn is_strict<P: Precedence>(order: &P, s: &Term, t: &Term) -> bool
    ensures { IsTrue result
        ↔ PathStrict (P.ranks order.now) (P.filters order.now) (tree s.now) (tree t.now) }
{
    compare_terms(order, s, t).is_greater()
}

/// How the first filtered term is above the second.
pub(crate) fn decrease<P: Precedence>(order: &P, s: &Term, t: &Term) -> Decrease
    ensures { IsDecreaseOf
        (PathWeak (P.ranks order.now) (P.filters order.now) (tree s.now) (tree t.now))
        (PathStrict (P.ranks order.now) (P.filters order.now) (tree s.now) (tree t.now)) result }
{
    match compare_terms(order, s, t) {
        Comparison::Same => Decrease::Weak,
        Comparison::Greater => Decrease::Strict,
        Comparison::Neither => Decrease::Missing,
    }
}

/// How the first filtered term compares with the second. Between small terms, the cost is about the
/// product of the numbers of nodes. Between large ones, it is that or, where memory serves, about the
/// product of the numbers of different subterms, whichever is less.
fn compare_terms<P: Precedence>(order: &P, s: &Term, t: &Term) -> Comparison
    ensures { IsComparison (P.ranks order.now) (filtered (P.filters order.now) (tree s.now))
        (filtered (P.filters order.now) (tree t.now)) result }
{
    let (comparison, _) = compare_sharing(order, s, t);
    comparison
}

/// The same, with what the terms share where that was found out, if it takes little memory.
fn compare_sharing<P: Precedence>(order: &P, s: &Term, t: &Term) -> (Comparison, Option<SharedPair>)
    ensures comparison { IsComparison (P.ranks order.now)
        (filtered (P.filters order.now) (tree s.now)) (filtered (P.filters order.now) (tree t.now))
        result.0 }
    ensures shared { IfSome result.1 (ArePair (filtered (P.filters order.now) (tree s.now))
        (filtered (P.filters order.now) (tree t.now))) }
{
    if is_large(s) && is_large(t) {
        if let Some(alloc) = order.allocator() {
            if let Some(compared) = compare_large(alloc, order, s, t) {
                return compared;
            }
        }
    }
    match compare_unshared(order, s, t, &mut Unlimited) {
        Ok(comparison) => (comparison, None),
        Err(never) => match never {},
    }
}

/// The same, where few pairs tell, or memory serves.
fn compare_large<P: Precedence>(
    alloc: Global,
    order: &P,
    s: &Term,
    t: &Term,
) -> Option<(Comparison, Option<SharedPair>)>
    ensures comparison { IfSome result (λ compared. IsComparison (P.ranks order.now)
        (filtered (P.filters order.now) (tree s.now)) (filtered (P.filters order.now) (tree t.now))
        compared.0) }
    ensures shared { IfSome result (λ compared. IfSome compared.1
        (ArePair (filtered (P.filters order.now) (tree s.now))
        (filtered (P.filters order.now) (tree t.now)))) }
{
    if let Some(comparison) = compare_within(order, s, t, FEW_PAIRS) {
        return Some((comparison, None));
    }
    // Equal subterms are looked for where more pairs are compared than there are nodes.
    let nodes = s.size().saturating_add(t.size());
    if let Some(comparison) = compare_within(order, s, t, nodes) {
        return Some((comparison, None));
    }
    let shared = SharedPair::of(alloc, order, s, t, nodes).ok()?;
    let comparison = shared.compare(alloc, order).ok()?;
    if shared.is_small() {
        Some((comparison, Some(shared)))
    } else {
        Some((comparison, None))
    }
}

/// The same, where so many pairs tell.
fn compare_within<P: Precedence>(order: &P, s: &Term, t: &Term, pairs: u64) -> Option<Comparison>
    ensures { IfSome result (λ comparison. IsComparison (P.ranks order.now)
        (filtered (P.filters order.now) (tree s.now)) (filtered (P.filters order.now) (tree t.now))
        comparison) }
{
    compare_unshared(order, s, t, &mut Limited { pairs }).ok()
}

/// The same of the terms as they are, as far as the effort allows.
fn compare_unshared<'a, P: Precedence, E: Effort>(
    order: &'a P,
    s: &'a Term,
    t: &'a Term,
    effort: &mut E,
) -> Result<Comparison, E::End>
    ensures { IfOk result (λ comparison. IsComparison (P.ranks order.now)
        (filtered (P.filters order.now) (tree s.now)) (filtered (P.filters order.now) (tree t.now))
        comparison) }
{
    let terms = Unshared { order };
    let mut room = Room::new();
    compare(&terms, &mut room, effort, s, t)
}

/// How the first term of a pair compares with the second, where memory serves.
fn compare_pair<P: Precedence>(order: &P, shared: &SharedPair) -> Option<Comparison>
    requires { IsParted shared.now }
    ensures { IfSome result
        (IsComparison (P.ranks order.now) (left_tree shared.now) (right_tree shared.now)) }
{
    let alloc = order.allocator()?;
    shared.compare(alloc, order).ok()
}
