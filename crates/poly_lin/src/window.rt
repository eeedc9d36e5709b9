//! Adding up the coefficients of several variables, the window, in one walk.
ghost use Rattle.std.specs.Prelude.{◌≡◌, ◌<◌, ◌≤◌, ◌+◌, ◌*◌, ◌-◌, ◌^◌, ℕ, length, min, slice_index, ◌==◌, if◌then◌else◌};
ghost use Rattle.trs_core.specs.View.{tree};
ghost use Rattle.poly_lin.specs.Covering.{AreAdded, HasNoneBefore, IsBehind};

use crate::Coefficients;
use trs_core::{Term, least_variable};

/// How many variables the first walk takes: most terms have no more, and for them a window of many
/// would cost more than the walk.
pub(crate) const FEW: usize = 8;

/// How many variables one walk takes of a term with many.
pub(crate) const MANY: usize = 512;

/// Adds to each number a multiple of the coefficient of its variable; the first is that of `from`.
/// The answer is the least variable behind theirs that has a coefficient, or the best so far.
pub(crate) fn add_coefficients<T: Coefficients, const W: usize>(
    table: &T,
    from: u32,
    factor: u64,
    t: &Term,
    sums: &mut [u64; W],
    best: Option<u32>,
) -> Option<u32>
    requires { W ≤ 2 ^ 32 }
    ensures length { length sums.new ≡ W }
    ensures added { AreAdded (T.coefficient table.now) W from factor (tree t.now)
        sums.old sums.new }
    ensures next { HasNoneBefore (T.coefficient table.now) (from + W) (tree t.now) best result }
    ensures behind { IsBehind (from + W) best result }
{
    match t {
        Term::Var(x) => {
            add_at(sums, from, *x, factor);
            least_variable(t, u64::from(from) + W as u64, best)
        }
        Term::App(f, args) => {
            let row = table.row(*f);
            let mut next = best;
            for (i, arg) in args.items.iter().enumerate() {
                let coefficient = table.at(row, i + 1);
                if coefficient == 0 {
                    continue;
                }
                let product = factor.saturating_mul(coefficient);
                next = add_coefficients(table, from, product, arg, sums, next);
            }
            next
        }
    }
}

fn add_at<const W: usize>(sums: &mut [u64; W], from: u32, x: u32, factor: u64)
    ensures length { length sums.new ≡ W }
    ensures added { (i : ℕ) → i < W → min (slice_index sums.new i) (2 ^ 64 - 1)
        ≡ min (slice_index sums.old i + factor * (if x == from + i then 1 else 0)) (2 ^ 64 - 1) }
{
    if x < from {
        return;
    }
    let place = (x - from) as usize;
    if place < W {
        sums[place] = sums[place].saturating_add(factor);
    }
}
