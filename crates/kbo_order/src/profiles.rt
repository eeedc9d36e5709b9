//! What is worked out once of a term that is compared with several others.
ghost use Rattle.std.specs.Prelude.{◌≡◌, Ok};
ghost use Rattle.trs_core.specs.View.{tree};
ghost use Rattle.order_theory.specs.KnuthBendix.{KnuthGreater, KnuthWeak, KeepsOccurrences, weigh};
ghost use Rattle.pair_order.specs.Compared.{IsDecrease};
ghost use Rattle.kbo_order.specs.TooBig.{EitherIsBig};
ghost use Rattle.kbo_order.specs.Balances.{AreDifferences};
ghost use Rattle.kbo_order.specs.Seen.{IsWeight};
ghost use Rattle.kbo_order.specs.Profiles.{IsProfile, AreOccurrences};

use crate::Weighting;
use crate::balances::{Balances, Side};
use crate::comparing::{are_apart, decides, is_strict, measure};
use pair_order::{Decrease, TooBig};
use trs_core::{Term, least_variable};

/// Of how many variables a profile has the occurrences.
const PROFILED: usize = 64;

/// The weight of a term, unless it weighs too much, and how often the first variables occur in it.
#[derive(Drop)]
pub struct Profile {
    weight: Result<u64, TooBig>,
    occurrences: Balances<PROFILED>,
}

/// The profile of a term. It takes no memory.
pub(crate) fn profile_of<W: Weighting>(order: &W, t: &Term) -> Profile
    ensures { IsProfile (W.weights order.now) (tree t.now) result }
{
    let mut occurrences = Balances::<PROFILED>::new();
    let weight = measure(order, 0, Side::Left, t, &mut occurrences);
    Profile {
        weight,
        occurrences,
    }
}

/// How the first term, of which this is the profile, is above the second. The first term is walked
/// only where it weighs as much as the second and has its root, or where the second has variables
/// behind those of the profile.
pub(crate) fn decrease_from<W: Weighting>(
    order: &W,
    s: &Term,
    profile: &Profile,
    t: &Term,
) -> Result<Decrease, TooBig>
    requires { IsProfile (W.weights order.now) (tree s.now) profile.now }
    ensures { IsDecrease (EitherIsBig (W.weights order.now) (tree s.now) (tree t.now))
        (KnuthWeak (W.weights order.now) (W.ranks order.now) (tree s.now) (tree t.now))
        (KnuthGreater (W.weights order.now) (W.ranks order.now) (tree s.now) (tree t.now))
        result }
{
    match profile.weight {
        Err(_) => Err(TooBig),
        Ok(weight) => weighed_decrease(order, s, weight, &profile.occurrences, t),
    }
}

/// The same, where the first term has this weight and these occurrences of the first variables.
fn weighed_decrease<W: Weighting>(
    order: &W,
    s: &Term,
    weight: u64,
    occurrences: &Balances<PROFILED>,
    t: &Term,
) -> Result<Decrease, TooBig>
    requires weight { IsWeight (W.weights order.now) (tree s.now) (Ok weight) }
    requires occurrences { AreOccurrences 64 0 (tree s.now) occurrences.now }
    ensures { IsDecrease (EitherIsBig (W.weights order.now) (tree s.now) (tree t.now))
        (KnuthWeak (W.weights order.now) (W.ranks order.now) (tree s.now) (tree t.now))
        (KnuthGreater (W.weights order.now) (W.ranks order.now) (tree s.now) (tree t.now))
        result }
{
    let mut balances = occurrences.copy();
    let other = measure(order, 0, Side::Right, t, &mut balances)?;
    if weight == other {
        return level_decrease(order, s, &balances, t);
    }
    if weight < other {
        return Ok(Decrease::Missing);
    }
    decrease_by_occurrences(order, s, &balances, t)
}

/// The same of terms of one weight, with these balances of the first variables. Where their roots
/// decide, the first is not walked.
fn level_decrease<W: Weighting>(
    order: &W,
    s: &Term,
    balances: &Balances<PROFILED>,
    t: &Term,
) -> Result<Decrease, TooBig>
    requires fits { EitherIsBig (W.weights order.now) (tree s.now) (tree t.now) → ⊥ }
    requires level { weigh (W.weights order.now) (tree s.now)
        ≡ weigh (W.weights order.now) (tree t.now) }
    requires balances { AreDifferences 64 0 (tree s.now) (tree t.now) balances.now }
    ensures { IsDecrease (EitherIsBig (W.weights order.now) (tree s.now) (tree t.now))
        (KnuthWeak (W.weights order.now) (W.ranks order.now) (tree s.now) (tree t.now))
        (KnuthGreater (W.weights order.now) (W.ranks order.now) (tree s.now) (tree t.now))
        result }
{
    if !are_apart(s, t) {
        return decrease_by_walk(order, s, t);
    }
    if s.same(t) {
        return Ok(Decrease::Weak);
    }
    if !decides(order, s, t) {
        return Ok(Decrease::Missing);
    }
    decrease_by_occurrences(order, s, balances, t)
}

/// The same of different terms, where the first is greater if each variable occurs in it as often.
fn decrease_by_occurrences<W: Weighting>(
    order: &W,
    s: &Term,
    balances: &Balances<PROFILED>,
    t: &Term,
) -> Result<Decrease, TooBig>
    requires fits { EitherIsBig (W.weights order.now) (tree s.now) (tree t.now) → ⊥ }
    requires unlike { tree s.now ≡ tree t.now → ⊥ }
    requires balances { AreDifferences 64 0 (tree s.now) (tree t.now) balances.now }
    requires greater { KeepsOccurrences (tree s.now) (tree t.now) →
        KnuthGreater (W.weights order.now) (W.ranks order.now) (tree s.now) (tree t.now) }
    ensures { IsDecrease (EitherIsBig (W.weights order.now) (tree s.now) (tree t.now))
        (KnuthWeak (W.weights order.now) (W.ranks order.now) (tree s.now) (tree t.now))
        (KnuthGreater (W.weights order.now) (W.ranks order.now) (tree s.now) (tree t.now))
        result }
{
    if !balances.have_no_deficit() {
        return Ok(Decrease::Missing);
    }
    match least_variable(t, PROFILED as u64, None) {
        None => Ok(Decrease::Strict),
        Some(_) => decrease_by_walk(order, s, t),
    }
}

/// The same, where both terms are walked.
fn decrease_by_walk<W: Weighting>(order: &W, s: &Term, t: &Term) -> Result<Decrease, TooBig>
    ensures { IsDecrease (EitherIsBig (W.weights order.now) (tree s.now) (tree t.now))
        (KnuthWeak (W.weights order.now) (W.ranks order.now) (tree s.now) (tree t.now))
        (KnuthGreater (W.weights order.now) (W.ranks order.now) (tree s.now) (tree t.now))
        result }
{
    let greater = is_strict(order, s, t)?;
    if greater {
        return Ok(Decrease::Strict);
    }
    if s.same(t) {
        return Ok(Decrease::Weak);
    }
    Ok(Decrease::Missing)
}
