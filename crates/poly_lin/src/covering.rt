//! Comparing the coefficients of all variables, a window of them in one walk.
ghost use Rattle.std.specs.Prelude.{◌≡◌, ◌↔◌, ◌<◌, ◌≤◌, ◌+◌, ◌-◌, ◌^◌, ℕ, min, slice_index, IsTrue, IfOk, IfErr};
ghost use Rattle.trs_core.specs.View.{tree};
ghost use Rattle.order_theory.specs.LinearInterpretation.{coefficient};
ghost use Rattle.poly_lin.specs.Covering.{Covers, AreCovered, IsAfter};
ghost use Rattle.poly_lin.specs.Profiles.{AreCoefficients};

use crate::Coefficients;
use crate::window::{FEW, MANY, add_coefficients};
use trs_core::Term;

/// How many variables the second walk takes.
const SOME: usize = 16;

/// Of how many variables a profile has the coefficients.
pub(crate) const PROFILED: usize = 64;

/// The coefficient of a variable in the first term is less than that in the second.
#[derive(Clone, Copy)]
struct NotCovered;

/// Whether the coefficient in `a` of each variable is at least that in `b`, as far as 64 bits tell.
/// It takes no memory.
pub(crate) fn covers<T: Coefficients>(table: &T, a: &Term, b: &Term) -> bool
    ensures { IsTrue result ↔ Covers (T.coefficient table.now) (tree a.now) (tree b.now) }
{
    cover_all(table, a, b).is_ok()
}

/// The same, where the coefficients in `a` of the first variables are known.
pub(crate) fn covers_known<T: Coefficients>(
    table: &T,
    a: &Term,
    known: &[u64; PROFILED],
    b: &Term,
) -> bool
    requires { AreCoefficients (T.coefficient table.now) 64 0 (tree a.now) known.now }
    ensures { IsTrue result ↔ Covers (T.coefficient table.now) (tree a.now) (tree b.now) }
{
    cover_known(table, a, known, b).is_ok()
}

fn cover_known<T: Coefficients>(
    table: &T,
    a: &Term,
    known: &[u64; PROFILED],
    b: &Term,
) -> Result<(), NotCovered>
    requires { AreCoefficients (T.coefficient table.now) 64 0 (tree a.now) known.now }
    ensures covered { IfOk result (λ _.
        Covers (T.coefficient table.now) (tree a.now) (tree b.now)) }
    ensures not_covered { IfErr result (λ _.
        Covers (T.coefficient table.now) (tree a.now) (tree b.now) → ⊥) }
{
    let mut right = [0; PROFILED];
    let next = add_coefficients(table, 0, 1, b, &mut right, None);
    if !are_at_least(known, &right) {
        return Err(NotCovered);
    }
    cover_rest(table, a, b, next)
}

fn cover_all<T: Coefficients>(table: &T, a: &Term, b: &Term) -> Result<(), NotCovered>
    ensures covered { IfOk result (λ _.
        Covers (T.coefficient table.now) (tree a.now) (tree b.now)) }
    ensures not_covered { IfErr result (λ _.
        Covers (T.coefficient table.now) (tree a.now) (tree b.now) → ⊥) }
{
    let first = cover_window::<T, FEW>(table, a, b, Some(0))?;
    let next = cover_window::<T, SOME>(table, a, b, first)?;
    if next.is_none() {
        return Ok(());
    }
    cover_rest(table, a, b, next)
}

/// Compares the coefficients from this variable on. It is not inlined, so that only terms with so
/// many variables have the windows on the stack.
#[inline(never)]
fn cover_rest<T: Coefficients>(
    table: &T,
    a: &Term,
    b: &Term,
    from: Option<u32>,
) -> Result<(), NotCovered>
    requires { AreCovered (T.coefficient table.now) (tree a.now) (tree b.now) from }
    ensures covered { IfOk result (λ _.
        Covers (T.coefficient table.now) (tree a.now) (tree b.now)) }
    ensures not_covered { IfErr result (λ _.
        Covers (T.coefficient table.now) (tree a.now) (tree b.now) → ⊥) }
{
    let mut next = from;
    while next.is_some() {
        next = cover_window::<T, MANY>(table, a, b, next)?;
    }
    Ok(())
}

/// Compares the coefficients of a window from this variable on. The answer is the next variable
/// whose coefficients are to be compared, if there is one.
fn cover_window<T: Coefficients, const W: usize>(
    table: &T,
    a: &Term,
    b: &Term,
    from: Option<u32>,
) -> Result<Option<u32>, NotCovered>
    requires some { 0 < W }
    requires few { W ≤ 2 ^ 32 }
    ensures covered { IfOk result (λ next.
        AreCovered (T.coefficient table.now) (tree a.now) (tree b.now) from →
        AreCovered (T.coefficient table.now) (tree a.now) (tree b.now) next) }
    ensures after { IfOk result (IsAfter from) }
    ensures not_covered { IfErr result (λ _.
        Covers (T.coefficient table.now) (tree a.now) (tree b.now) → ⊥) }
{
    let Some(first) = from else {
        return Ok(None);
    };
    let mut right = [0; W];
    let next = add_coefficients(table, first, 1, b, &mut right, None);
    if !covers_these(table, a, first, &right) {
        return Err(NotCovered);
    }
    Ok(next)
}

/// Whether the coefficients in a term, of the variables from a number on, are at least these.
fn covers_these<T: Coefficients, const W: usize>(
    table: &T,
    a: &Term,
    from: u32,
    right: &[u64; W],
) -> bool
    requires { W ≤ 2 ^ 32 }
    ensures { IsTrue result ↔ ((i : ℕ) → i < W → min (slice_index right.now i) (2 ^ 64 - 1)
        ≤ min (coefficient (T.coefficient table.now) (from + i) (tree a.now)) (2 ^ 64 - 1)) }
{
    let mut left = [0; W];
    if are_at_least(&left, right) {
        return true;
    }
    add_coefficients(table, from, 1, a, &mut left, None);
    are_at_least(&left, right)
}

fn are_at_least<const W: usize>(left: &[u64; W], right: &[u64; W]) -> bool
    ensures { IsTrue result ↔ ((i : ℕ) → i < W →
        min (slice_index right.now i) (2 ^ 64 - 1) ≤ min (slice_index left.now i) (2 ^ 64 - 1)) }
{
    for i in 0..W {
        if left[i] < right[i] {
            return false;
        }
    }
    true
}
