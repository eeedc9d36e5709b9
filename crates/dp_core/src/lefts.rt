//! The left sides of pairs, as terms that are compared with several right sides.
ghost use Rattle.std.specs.Prelude.{◌≡◌, ◌<◌, IfOk, IfSome, map};
ghost use Rattle.trs_core.specs.View.{tree};
ghost use Rattle.pair_theory.specs.Marked.{Marked, mark};
ghost use Rattle.dp_core.specs.LeftNumbers.{AreMarkedLefts, IsKeptAs, term_of};

use crate::Side;
use crate::sides::{marked_copy, marked_term};
use pair_order::ReductionPair;
use std::alloc::Global;
use trs_core::{OutOfMemory, Term, Trs, systems_are_valid};

/// The numbers of the left sides of pairs. Those that are kept stand under their numbers, with marked
/// roots.
#[derive(Drop)]
pub(crate) struct Lefts {
    pub numbers: Vec<u32>,
    pub kept: Vec<Term>,
}

/// A term that was made, or is kept by another.
#[derive(Drop)]
pub(crate) enum LeftTerm<'t> {
    Made(Term),
    Kept(&'t Term),
}

impl<'t> LeftTerm<'t> {
    pub(crate) fn get(&self) -> &Term
        ensures { result.now ≡ term_of self.now }
    {
        match self {
            LeftTerm::Made(term) => term,
            LeftTerm::Kept(term) => term,
        }
    }
}

/// A left side of pairs: its number, and the term with its profile.
#[derive(Drop)]
pub(crate) struct Left<'t, P> {
    pub number: u32,
    pub term: LeftTerm<'t>,
    pub profile: P,
}

/// The left side of this number. The last one is taken again, if it is the same. Of the kept terms,
/// the one with the number is the left side, if there is one.
pub(crate) fn left_of<'t, O: ReductionPair>(
    alloc: Global,
    order: &O,
    last: Option<Left<'t, O::Profile>>,
    kept: &'t [Term],
    number: u32,
    side: &Side,
) -> Result<Left<'t, O::Profile>, OutOfMemory>
    requires small { side.now.symbol < 4096 }
    requires last { IfSome last (λ left. left.number ≡ number →
        tree (term_of left.term) ≡ mark side.now) }
    requires profile { IfSome last (λ left. O.is_profile order.now
        (tree (term_of left.term)) left.profile) }
    requires kept { IsKeptAs (map tree kept.now) number (mark side.now) }
    ensures number { IfOk result (λ left. left.number ≡ number) }
    ensures term { IfOk result (λ left. tree (term_of left.term) ≡ mark side.now) }
    ensures profile { IfOk result (λ left. O.is_profile order.now
        (tree (term_of left.term)) left.profile) }
{
    if let Some(left) = last {
        if left.number == number {
            return Ok(left);
        }
    }
    let term = left_term(alloc, kept, number, side)?;
    let profile = order.profile(term.get());
    Ok(Left {
        number,
        term,
        profile,
    })
}

/// The kept term of this number, or the left side itself.
fn left_term<'t>(
    alloc: Global,
    kept: &'t [Term],
    number: u32,
    side: &Side,
) -> Result<LeftTerm<'t>, OutOfMemory>
    requires small { side.now.symbol < 4096 }
    requires kept { IsKeptAs (map tree kept.now) number (mark side.now) }
    ensures { IfOk result (λ term. tree (term_of term) ≡ mark side.now) }
{
    match kept.get(number as usize) {
        Some(term) => Ok(LeftTerm::Kept(term)),
        None => Ok(LeftTerm::Made(marked_term(alloc, side)?)),
    }
}

/// The left sides of the rules with marked roots, by the numbers of the rules.
pub(crate) fn marked_lefts(alloc: Global, trs: &Trs) -> Result<Vec<Term>, OutOfMemory>
    ensures { IfOk result (λ terms. AreMarkedLefts (map tree terms.items) trs.now.rules) }
{
    systems_are_valid(trs);
    let rules = trs.rules();
    let mut terms = Vec::with_capacity(alloc, rules.len())?;
    for rule in rules {
        terms.push(marked_copy(alloc, &rule.left)?)?;
    }
    Ok(terms)
}
