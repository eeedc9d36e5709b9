//! What is worked out once of a term whose polynomial is compared with several others.
ghost use Rattle.trs_core.specs.View.{tree};
ghost use Rattle.order_theory.specs.LinearInterpretation.{LinearWeak, LinearStrict};
ghost use Rattle.pair_order.specs.Compared.{IsDecrease};
ghost use Rattle.poly_lin.specs.TooBig.{EitherIsBig};
ghost use Rattle.poly_lin.specs.Profiles.{IsProfile};

use crate::Coefficients;
use crate::covering::{PROFILED, covers_known};
use crate::too_big::has_big_coefficient;
use crate::values::saturated_value;
use crate::window::add_coefficients;
use pair_order::{Decrease, TooBig};
use trs_core::Term;

/// What the polynomial of a term tells: whether that of some subterm is too big, the constant, and
/// the coefficients of the first variables.
#[derive(Drop)]
pub struct Profile {
    is_big: bool,
    constant: u64,
    coefficients: [u64; PROFILED],
}

/// The profile of a term. It takes no memory.
pub(crate) fn profile_of<T: Coefficients>(table: &T, t: &Term) -> Profile
    ensures { IsProfile (T.coefficient table.now) (tree t.now) result }
{
    let mut coefficients = [0; PROFILED];
    add_coefficients(table, 0, 1, t, &mut coefficients, None);
    Profile {
        is_big: has_big_coefficient(table, t),
        constant: saturated_value(table, 0, t),
        coefficients,
    }
}

/// How the first term's polynomial, of which this is the profile, is above the second's. The first
/// term is walked only where the second has variables behind those of the profile.
pub(crate) fn decrease_from<T: Coefficients>(
    table: &T,
    a: &Term,
    profile: &Profile,
    b: &Term,
) -> Result<Decrease, TooBig>
    requires { IsProfile (T.coefficient table.now) (tree a.now) profile.now }
    ensures { IsDecrease (EitherIsBig (T.coefficient table.now) (tree a.now) (tree b.now))
        (LinearWeak (T.coefficient table.now) (tree a.now) (tree b.now))
        (LinearStrict (T.coefficient table.now) (tree a.now) (tree b.now)) result }
{
    if profile.is_big {
        return Err(TooBig);
    }
    if has_big_coefficient(table, b) {
        return Err(TooBig);
    }
    let left = profile.constant;
    let right = saturated_value(table, 0, b);
    if left < right {
        return Ok(Decrease::Missing);
    }
    if !covers_known(table, a, &profile.coefficients, b) {
        return Ok(Decrease::Missing);
    }
    if left == right {
        return Ok(Decrease::Weak);
    }
    Ok(Decrease::Strict)
}
