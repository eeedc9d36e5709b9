//! Comparisons by a linear interpretation, as tests that are false where a polynomial is too big. What
//! the polynomials say comes first, since that passes over what has the coefficient 0.
ghost use Rattle.std.specs.Prelude.{◌≡◌, ◌↔◌, ◌<◌, ◌+◌, ◌^◌, ℕ, Some, false, length, get_or, slice_get, IfOk, IfSome, IsTrue};
ghost use Rattle.poly_lin.specs.TooBig.{EitherIsBig};
ghost use Rattle.trs_defs.specs.System.{RewriteRule};
ghost use Rattle.order_search.specs.OrderSpace.{some_falls};
ghost use Rattle.poly_find.specs.LinearTest.{linear_weak, linear_strict};
ghost use Rattle.poly_find.specs.RuleSubterms.{AreOf};
ghost use Rattle.poly_find.specs.SmallTerms.{IsSafe};

use order_search::LentRule;
use poly_lin::{
    Coefficients, Subterms, either_is_big, either_is_big_in, is_strictly_above_if_small,
    is_weakly_above_if_small,
};
use std::alloc::Global;
use trs_core::OutOfMemory;

/// Whether the left side is the right one, or greater.
pub(crate) fn is_weak<T: Coefficients>(
    alloc: Global,
    table: &T,
    small: bool,
    subterms: Option<&Subterms>,
    rule: &LentRule,
) -> Result<bool, OutOfMemory>
    requires safe { IsSafe (T.coefficient table.now) small rule.now }
    requires subterms { IfSome subterms (λ listed. AreOf rule.now listed.now) }
    ensures { IfOk result (λ weak.
        weak ≡ linear_weak (T.coefficient table.now) rule.now.left rule.now.right) }
{
    if !is_weakly_above_if_small(table, rule.left, rule.right) {
        return Ok(false);
    }
    if small {
        return Ok(true);
    }
    Ok(!is_big(alloc, table, subterms, rule)?)
}

/// Whether a polynomial is too big. Where the rule's subterms are listed, equal ones are mostly
/// looked at once.
fn is_big<T: Coefficients>(
    alloc: Global,
    table: &T,
    subterms: Option<&Subterms>,
    rule: &LentRule,
) -> Result<bool, OutOfMemory>
    requires { IfSome subterms (λ listed. AreOf rule.now listed.now) }
    ensures { IfOk result (λ big. IsTrue big
        ↔ EitherIsBig (T.coefficient table.now) rule.now.left rule.now.right) }
{
    match subterms {
        Some(listed) => either_is_big_in(alloc, table, listed),
        None => Ok(either_is_big(table, rule.left, rule.right)),
    }
}

/// Whether the left side is greater.
fn is_strict<T: Coefficients>(table: &T, small: bool, rule: &LentRule) -> bool
    requires { IsSafe (T.coefficient table.now) small rule.now }
    ensures { result ≡ linear_strict (T.coefficient table.now) rule.now.left rule.now.right }
{
    if !is_strictly_above_if_small(table, rule.left, rule.right) {
        return false;
    }
    small || !either_is_big(table, rule.left, rule.right)
}

/// Whether some left side is greater than its right side. The flags of the rules stand behind so
/// many others.
pub(crate) fn some_is_strict<T: Coefficients>(
    table: &T,
    small: &[bool],
    others: usize,
    rules: &[LentRule],
) -> bool
    requires few { others + length rules.now < 2 ^ 32 }
    requires safe { (k : ℕ) (r : RewriteRule) → slice_get rules.now k ≡ Some r →
        IsSafe (T.coefficient table.now) (get_or small.now (others + k) false) r }
    ensures { result ≡ some_falls (linear_strict (T.coefficient table.now)) rules.now }
{
    for (k, rule) in rules.iter().enumerate() {
        if is_strict(table, flag_at(small, others + k), rule) {
            return true;
        }
    }
    false
}

/// The flag of this number, or false where there are not so many.
pub(crate) fn flag_at(flags: &[bool], number: usize) -> bool
    ensures { result ≡ get_or flags.now number false }
{
    match flags.get(number) {
        Some(flag) => *flag,
        None => false,
    }
}
