//! Terms whose polynomials are too big to be compared.
ghost use Rattle.std.specs.Prelude.{◌≡◌, ◌↔◌, ◌≤◌, ◌^◌, ℕ, false, IsTrue};
ghost use Rattle.trs_core.specs.View.{tree};
ghost use Rattle.order_theory.specs.LinearInterpretation.{coefficient};
ghost use Rattle.poly_lin.specs.Subterms.{value_at_one};
ghost use Rattle.poly_lin.specs.TooBig.{AreSmall, IsBig, HasBigCoefficient, counting};

use crate::Coefficients;
use crate::counting::Counting;
use crate::table::has_big;
use crate::values::saturated_value;
use crate::window::{FEW, MANY, add_coefficients};
use trs_core::{GREATEST_NUMBER, Term};

/// Whether the polynomial of some subterm has a constant or a coefficient above 2^63 - 1. It takes
/// no memory.
pub(crate) fn has_big_coefficient<T: Coefficients>(table: &T, t: &Term) -> bool
    ensures { IsTrue result ↔ HasBigCoefficient (T.coefficient table.now) (tree t.now) }
{
    has_big_if(table, saturated_value(&Counting { table }, 1, t), t)
}

/// The same, where the value is known by the table by which each argument counts.
pub(crate) fn has_big_if<T: Coefficients>(table: &T, counted: u64, t: &Term) -> bool
    requires { counted ≡ value_at_one
        (λ f. counting (T.coefficient table.now f)) (tree t.now) }
    ensures { IsTrue result ↔ HasBigCoefficient (T.coefficient table.now) (tree t.now) }
{
    if counted <= GREATEST_NUMBER {
        return false;
    }
    if is_big(table, t) {
        return true;
    }
    has_big_behind_zero(table, t)
}

/// Whether that of an argument with the coefficient 0 has one, or that of a subterm of the argument.
/// In the polynomial of any other argument nothing is greater than in that of the whole term.
fn has_big_behind_zero<T: Coefficients>(table: &T, t: &Term) -> bool
    ensures found { IsTrue result →
        HasBigCoefficient (T.coefficient table.now) (tree t.now) }
    ensures else_whole { result ≡ false →
        HasBigCoefficient (T.coefficient table.now) (tree t.now) →
        IsBig (T.coefficient table.now) (tree t.now) }
{
    match t {
        Term::Var(_) => false,
        Term::App(f, args) => {
            let row = table.row(*f);
            for (i, arg) in args.items.iter().enumerate() {
                if table.at(row, i + 1) == 0 && is_big(table, arg) {
                    return true;
                }
                if has_big_behind_zero(table, arg) {
                    return true;
                }
            }
            false
        }
    }
}

/// Whether that of the term itself has one.
fn is_big<T: Coefficients>(table: &T, t: &Term) -> bool
    ensures { IsTrue result ↔ IsBig (T.coefficient table.now) (tree t.now) }
{
    // The value where variables stand for 1 is the sum of the constant and of all coefficients.
    if saturated_value(table, 1, t) <= GREATEST_NUMBER {
        return false;
    }
    if saturated_value(table, 0, t) > GREATEST_NUMBER {
        return true;
    }
    has_big_variable(table, t)
}

/// Whether the coefficient of some variable is above 2^63 - 1.
fn has_big_variable<T: Coefficients>(table: &T, t: &Term) -> bool
    ensures { IsTrue result ↔
        ((x : ℕ) × (2 ^ 63 ≤ coefficient (T.coefficient table.now) x (tree t.now))) }
{
    let mut sums = [0; FEW];
    let next = add_coefficients(table, 0, 1, t, &mut sums, None);
    has_big(&sums) || has_big_from(table, t, next)
}

/// The same, where no variable before this one has such a coefficient. It is not inlined, so that a
/// recursion does not have the window on the stack at each level.
#[inline(never)]
fn has_big_from<T: Coefficients>(table: &T, t: &Term, from: Option<u32>) -> bool
    requires { AreSmall (T.coefficient table.now) (tree t.now) from }
    ensures { IsTrue result ↔
        ((x : ℕ) × (2 ^ 63 ≤ coefficient (T.coefficient table.now) x (tree t.now))) }
{
    let mut next = from;
    while let Some(first) = next {
        let mut sums = [0; MANY];
        next = add_coefficients(table, first, 1, t, &mut sums, None);
        if has_big(&sums) {
            return true;
        }
    }
    false
}
