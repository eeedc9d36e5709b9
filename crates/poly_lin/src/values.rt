//! Values of polynomials, as far as 64 bits tell.
ghost use Rattle.std.specs.Prelude.{◌≡◌, ◌+◌, ◌*◌, ◌-◌, ◌^◌, min};
ghost use Rattle.trs_core.specs.View.{tree};
ghost use Rattle.order_theory.specs.LinearInterpretation.{value};

use crate::Coefficients;
use trs_core::Term;

/// The value of the term's polynomial where each variable stands for this number, or the last `u64`
/// where it is greater.
pub(crate) fn saturated_value<T: Coefficients>(table: &T, each: u64, t: &Term) -> u64
    ensures { result ≡ min (value (T.coefficient table.now) (λ x. each) (tree t.now)) (2 ^ 64 - 1) }
{
    match t {
        Term::Var(_) => each,
        Term::App(f, args) => {
            let row = table.row(*f);
            let mut sum = table.at(row, 0);
            for (i, arg) in args.items.iter().enumerate() {
                let factor = table.at(row, i + 1);
                if factor == 0 {
                    continue;
                }
                sum = plus_saturated(sum, factor, saturated_value(table, each, arg));
            }
            sum
        }
    }
}

pub(crate) fn plus_saturated(sum: u64, factor: u64, value: u64) -> u64
    ensures { result ≡ min (sum + min (factor * value) (2 ^ 64 - 1)) (2 ^ 64 - 1) }
{
    sum.saturating_add(factor.saturating_mul(value))
}
