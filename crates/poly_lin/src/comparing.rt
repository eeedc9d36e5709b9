ghost use Rattle.std.specs.Prelude.{◌↔◌, IsTrue, IfOk};
ghost use Rattle.trs_core.specs.View.{tree};
ghost use Rattle.order_theory.specs.LinearInterpretation.{LinearWeak, LinearStrict};
ghost use Rattle.pair_order.specs.Compared.{IsAnswer};
ghost use Rattle.poly_lin.specs.TooBig.{EitherIsBig};

use crate::counting::Counting;
use crate::small::{is_strictly_above_if_small, is_weakly_above_if_small};
use crate::too_big::{has_big_coefficient, has_big_if};
use crate::{Coefficients, Subterms};
use pair_order::TooBig;
use std::alloc::Global;
use trs_core::{OutOfMemory, Term};

/// Whether the first term's polynomial is at least the second's wherever variables stand for
/// numbers. `TooBig` comes where some subterm's polynomial has a coefficient above 2^63 - 1. It takes
/// no memory.
pub fn is_weakly_above<T: Coefficients>(table: &T, a: &Term, b: &Term) -> Result<bool, TooBig>
    ensures { IsAnswer (EitherIsBig (T.coefficient table.now) (tree a.now) (tree b.now))
        (LinearWeak (T.coefficient table.now) (tree a.now) (tree b.now)) result }
{
    if either_is_big(table, a, b) {
        return Err(TooBig);
    }
    Ok(is_weakly_above_if_small(table, a, b))
}

/// Whether it is greater there; the same otherwise.
pub fn is_strictly_above<T: Coefficients>(table: &T, a: &Term, b: &Term) -> Result<bool, TooBig>
    ensures { IsAnswer (EitherIsBig (T.coefficient table.now) (tree a.now) (tree b.now))
        (LinearStrict (T.coefficient table.now) (tree a.now) (tree b.now)) result }
{
    if either_is_big(table, a, b) {
        return Err(TooBig);
    }
    Ok(is_strictly_above_if_small(table, a, b))
}

/// Whether the polynomial of some subterm of these terms has a coefficient above 2^63 - 1. It takes
/// no memory, but walks all that has the coefficient 0.
pub fn either_is_big<T: Coefficients>(table: &T, a: &Term, b: &Term) -> bool
    ensures { IsTrue result ↔
        EitherIsBig (T.coefficient table.now) (tree a.now) (tree b.now) }
{
    has_big_coefficient(table, a) || has_big_coefficient(table, b)
}

/// The same of terms whose subterms are listed. Subterms that are equal are mostly looked at once,
/// which takes memory for a number of each.
pub fn either_is_big_in<T: Coefficients>(
    alloc: Global,
    table: &T,
    subterms: &Subterms,
) -> Result<bool, OutOfMemory>
    ensures { IfOk result (λ big. IsTrue big ↔ EitherIsBig (T.coefficient table.now)
        (tree subterms.now.left.now) (tree subterms.now.right.now)) }
{
    let (left, right) = subterms.values_at_one(alloc, &Counting { table })?;
    Ok(has_big_if(table, left, subterms.left) || has_big_if(table, right, subterms.right))
}
