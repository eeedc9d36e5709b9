ghost use Rattle.std.specs.Prelude.{◌↔◌, IsTrue};
ghost use Rattle.trs_core.specs.View.{tree};
ghost use Rattle.order_theory.specs.LinearInterpretation.{LinearWeak, LinearStrict};
ghost use Rattle.poly_lin.specs.TooBig.{EitherIsBig};

use crate::Coefficients;
use crate::covering::covers;
use crate::values::saturated_value;
use trs_core::Term;

/// Whether the first term's polynomial is at least the second's wherever variables stand for
/// numbers, where no subterm's polynomial has a coefficient above 2^63 - 1. It takes no memory, and
/// passes over what has the coefficient 0.
pub fn is_weakly_above_if_small<T: Coefficients>(table: &T, a: &Term, b: &Term) -> bool
    ensures { (EitherIsBig (T.coefficient table.now) (tree a.now) (tree b.now) → ⊥) →
        (IsTrue result ↔ LinearWeak (T.coefficient table.now) (tree a.now) (tree b.now)) }
{
    let right = saturated_value(table, 0, b);
    let left = saturated_value(table, 0, a);
    if left < right {
        return false;
    }
    covers(table, a, b)
}

/// Whether it is greater there; the same otherwise.
pub fn is_strictly_above_if_small<T: Coefficients>(table: &T, a: &Term, b: &Term) -> bool
    ensures { (EitherIsBig (T.coefficient table.now) (tree a.now) (tree b.now) → ⊥) →
        (IsTrue result ↔ LinearStrict (T.coefficient table.now) (tree a.now) (tree b.now)) }
{
    let right = saturated_value(table, 0, b);
    let left = saturated_value(table, 0, a);
    if left <= right {
        return false;
    }
    covers(table, a, b)
}
