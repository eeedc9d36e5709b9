ghost use Rattle.std.specs.Prelude.{◌≡◌, ◌↔◌, ◌<◌, ◌^◌, ℕ, IfOk, IsTrue};
ghost use Rattle.trs_core.specs.View.{tree};
ghost use Rattle.order_theory.specs.KnuthBendix.{KnuthGreater, KnuthWeak, Tower, weigh};
ghost use Rattle.pair_order.specs.Compared.{IsAnswer};
ghost use Rattle.kbo_order.specs.TooBig.{EitherIsBig};
ghost use Rattle.kbo_order.specs.Balances.{AreEven, TermIsCounted, TermsAreCounted};
ghost use Rattle.kbo_order.specs.Seen.{Sees, IsView, IsWeight, IsSum, AreWeights, AreApart, Decides};

use crate::Weighting;
use crate::balances::{Balances, Side};
use crate::measure::{Seen, Weights, plus};
use pair_order::TooBig;
use trs_core::{Term, least_variable};

/// How many variables the first walk takes: most terms have no more.
const FIRST_WINDOW: usize = 8;

/// How many variables the second walk takes.
const SECOND_WINDOW: usize = 32;

/// How many variables each later walk takes. A walk that takes more costs more to begin.
const LATER_WINDOW: usize = 4096;

/// Whether the first term is the second, or greater.
pub fn is_weak<W: Weighting>(order: &W, s: &Term, t: &Term) -> Result<bool, TooBig>
    ensures { IsAnswer (EitherIsBig (W.weights order.now) (tree s.now) (tree t.now))
        (KnuthWeak (W.weights order.now) (W.ranks order.now) (tree s.now) (tree t.now)) result }
{
    let greater = is_greater(order, s, t)?;
    Ok(greater || s.same(t))
}

/// Whether the first term is greater than the second.
pub fn is_strict<W: Weighting>(order: &W, s: &Term, t: &Term) -> Result<bool, TooBig>
    ensures { IsAnswer (EitherIsBig (W.weights order.now) (tree s.now) (tree t.now))
        (KnuthGreater (W.weights order.now) (W.ranks order.now) (tree s.now) (tree t.now))
        result }
{
    is_greater(order, s, t)
}

/// Whether the first term is greater. Some variables that occur in the second see the terms in one
/// walk; the first that see that it is not greater are the last.
fn is_greater<W: Weighting>(order: &W, s: &Term, t: &Term) -> Result<bool, TooBig>
    ensures { IsAnswer (EitherIsBig (W.weights order.now) (tree s.now) (tree t.now))
        (KnuthGreater (W.weights order.now) (W.ranks order.now)
        (tree s.now) (tree t.now)) result }
{
    let first = view::<W, FIRST_WINDOW>(order, 0, s, t)?;
    if !first {
        return Ok(false);
    }
    let Some(y) = least_variable(t, FIRST_WINDOW as u64, None) else {
        return Ok(true);
    };
    let second = view::<W, SECOND_WINDOW>(order, y, s, t)?;
    if !second {
        return Ok(false);
    }
    let mut from: u64 = u64::from(y) + SECOND_WINDOW as u64;
    while let Some(x) = least_variable(t, from, None) {
        let next = view::<W, LATER_WINDOW>(order, x, s, t)?;
        if !next {
            return Ok(false);
        }
        from = u64::from(x) + LATER_WINDOW as u64;
    }
    Ok(true)
}

/// Whether each variable from a number on, of those that one walk takes, sees that the first term is
/// greater.
fn view<W: Weighting, const N: usize>(
    order: &W,
    from: u32,
    s: &Term,
    t: &Term,
) -> Result<bool, TooBig>
    requires some { 0 < N }
    requires fits { N < 2 ^ 32 }
    ensures { IsView (W.weights order.now) (W.ranks order.now) N from
        (tree s.now) (tree t.now) result }
{
    let mut balances = Balances::<N>::new();
    let seen = see(order, from, s, t, &mut balances)?;
    Ok(seen.greater)
}

/// What the variables see. Of arguments before the first that differ, no occurrences are counted.
fn see<W: Weighting, const N: usize>(
    order: &W,
    from: u32,
    s: &Term,
    t: &Term,
    balances: &mut Balances<N>,
) -> Result<Seen, TooBig>
    requires some { 0 < N }
    requires even { AreEven N balances.old }
    ensures { Sees (W.weights order.now) (W.ranks order.now) N from
        (tree s.now) (tree t.now) balances.new result }
{
    match s {
        Term::Var(_) => see_apart(order, from, s, t, balances),
        Term::App(f, ss) => match t {
            Term::Var(_) => see_apart(order, from, s, t, balances),
            Term::App(g, ts) => {
                if f != g {
                    return see_apart(order, from, s, t, balances);
                }
                if ss.items.len() != ts.items.len() {
                    return see_apart(order, from, s, t, balances);
                }
                let mut seen = Seen {
                    weights: Weights { left: 0, right: 0 },
                    same: true,
                    greater: false,
                };
                for (i, a) in ss.items.iter().enumerate() {
                    let b = &ts.items[i];
                    if seen.same {
                        let next = see(order, from, a, b, balances)?;
                        let sums = seen.weights.plus(next.weights)?;
                        seen = Seen {
                            weights: sums,
                            same: next.same,
                            greater: next.greater,
                        };
                        continue;
                    }
                    let more = measure_both(order, from, a, b, balances)?;
                    let sums = seen.weights.plus(more)?;
                    seen = Seen {
                        weights: sums,
                        same: false,
                        greater: seen.greater,
                    };
                }
                let root = order.weight(*f);
                let weights = seen.weights.plus(Weights {
                    left: root,
                    right: root,
                })?;
                let greater = weights.are_above(seen.greater, balances);
                Ok(Seen {
                    weights,
                    same: seen.same,
                    greater,
                })
            }
        },
    }
}

/// The same of terms that are no applications of one symbol to as many arguments.
fn see_apart<W: Weighting, const N: usize>(
    order: &W,
    from: u32,
    s: &Term,
    t: &Term,
    balances: &mut Balances<N>,
) -> Result<Seen, TooBig>
    requires apart { AreApart (tree s.now) (tree t.now) }
    requires some { 0 < N }
    requires even { AreEven N balances.old }
    ensures { Sees (W.weights order.now) (W.ranks order.now) N from
        (tree s.now) (tree t.now) balances.new result }
{
    let same = are_one_variable(s, t);
    if same {
        return Ok(Seen {
            weights: Weights { left: 1, right: 1 },
            same: true,
            greater: false,
        });
    }
    let weights = measure_both(order, from, s, t, balances)?;
    let rest = decides(order, s, t);
    let greater = weights.are_above(rest, balances);
    Ok(Seen {
        weights,
        same: false,
        greater,
    })
}

/// The weights of two terms; the occurrences of their variables are counted.
fn measure_both<W: Weighting, const N: usize>(
    order: &W,
    from: u32,
    s: &Term,
    t: &Term,
    balances: &mut Balances<N>,
) -> Result<Weights, TooBig>
    ensures weights { AreWeights (W.weights order.now) (tree s.now) (tree t.now) result }
    ensures counted { IfOk result (λ _. TermsAreCounted N from (tree s.now) (tree t.now)
        balances.old balances.new) }
{
    let left = measure(order, from, Side::Left, s, balances)?;
    let right = measure(order, from, Side::Right, t, balances)?;
    Ok(Weights { left, right })
}

/// The weight of the term on a side; the occurrences of its variables are counted.
pub(crate) fn measure<W: Weighting, const N: usize>(
    order: &W,
    from: u32,
    side: Side,
    t: &Term,
    balances: &mut Balances<N>,
) -> Result<u64, TooBig>
    ensures weight { IsWeight (W.weights order.now) (tree t.now) result }
    ensures counted { IfOk result (λ _. TermIsCounted N from side (tree t.now)
        balances.old balances.new) }
{
    add_weight(order, from, side, 0, t, balances)
}

/// The sum of a weight and the term's; the occurrences of its variables are counted.
fn add_weight<W: Weighting, const N: usize>(
    order: &W,
    from: u32,
    side: Side,
    weight: u64,
    t: &Term,
    balances: &mut Balances<N>,
) -> Result<u64, TooBig>
    ensures weight { IsSum weight (weigh (W.weights order.now) (tree t.now)) result }
    ensures counted { IfOk result (λ _. TermIsCounted N from side (tree t.now)
        balances.old balances.new) }
{
    match t {
        Term::Var(x) => {
            balances.count(from, side, *x);
            plus(weight, 1)
        }
        Term::App(f, args) => {
            let mut sum = plus(weight, order.weight(*f))?;
            for arg in &args.items {
                sum = add_weight(order, from, side, sum, arg, balances)?;
            }
            Ok(sum)
        }
    }
}

/// Whether two terms are no applications of one symbol to as many arguments.
pub(crate) fn are_apart(s: &Term, t: &Term) -> bool
    ensures { IsTrue result ↔ AreApart (tree s.now) (tree t.now) }
{
    match s {
        Term::Var(_) => true,
        Term::App(f, ss) => match t {
            Term::Var(_) => true,
            Term::App(g, ts) => {
                if f != g {
                    return true;
                }
                ss.items.len() != ts.items.len()
            }
        },
    }
}

/// Whether the first of two such terms of one weight is greater.
pub(crate) fn decides<W: Weighting>(order: &W, s: &Term, t: &Term) -> bool
    requires { AreApart (tree s.now) (tree t.now) }
    ensures { (x : ℕ) → IsTrue result ↔ Decides (W.weights order.now)
        (W.ranks order.now) x (tree s.now) (tree t.now) }
{
    match s {
        Term::Var(_) => false,
        Term::App(f, _) => match t {
            Term::Var(y) => is_tower(*f, *y, s),
            Term::App(g, _) => order.rank(*g) < order.rank(*f),
        },
    }
}

/// Whether the term is a symbol applied one or more times to a variable.
fn is_tower(f: u32, x: u32, t: &Term) -> bool
    ensures { IsTrue result ↔ Tower f x (tree t.now) }
{
    match t {
        Term::Var(_) => false,
        Term::App(g, args) => {
            if *g != f {
                return false;
            }
            if args.items.len() != 1 {
                return false;
            }
            match &args.items[0] {
                Term::Var(y) => *y == x,
                Term::App(_, _) => is_tower(f, x, &args.items[0]),
            }
        }
    }
}

fn are_one_variable(s: &Term, t: &Term) -> bool
    requires { AreApart (tree s.now) (tree t.now) }
    ensures { IsTrue result ↔ (tree s.now ≡ tree t.now) }
{
    match s {
        Term::Var(x) => match t {
            Term::Var(y) => x == y,
            Term::App(_, _) => false,
        },
        Term::App(_, _) => false,
    }
}
