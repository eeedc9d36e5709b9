ghost use Rattle.std.specs.Prelude.{◌≡◌, ◌<◌, ◌↔◌, ◌++◌, ℕ, true, IsTrue, List};
ghost use Rattle.std.specs.Prelude.{All, IfOk, OnOk, [], ◌∷◌, Some, None, zip, length};
ghost use Rattle.trs_defs.specs.Member.{In};
ghost use Rattle.pair_theory.specs.DependencyPair.{DependencyPair, dependency_pairs};
ghost use Rattle.rewrite_core.specs.Check.{Answers, AnswersBy, ForbidsAny, Needs, Returns};
ghost use Rattle.rewrite_core.specs.Check.{Then, collect};
ghost use Rattle.rewrite_core.specs.declared.checks.refusals.StepRefused.TheVariants.{NoEntry};
ghost use Rattle.rewrite_core.specs.declared.checks.refusals.StepRefused.TheVariants.{NothingRemoved};
ghost use Rattle.dp_core.specs.PlacedPairs.{placed_pairs};
ghost use Rattle.dp_core.specs.Numbered.{ArePairsOf};
ghost use Rattle.dp_core.specs.LeastMissing.{IsMissing, IsLeastMissing};
ghost use Rattle.dp_core.specs.SubtermConditions.{roots_of, place_for, projects_within, unflagged};
ghost use Rattle.dp_core.specs.SubtermConditions.{subterm_conditions};

use crate::contained::{Containment, containment_in};
use crate::projections::{Places, project};
use crate::{DpPair, Pairs, Side, Sides};
use rewrite_core::{CheckFault, StepRefused};
use std::alloc::Global;
use trs_core::{OutOfMemory, Trs};

/// The pairs of a problem that remain by the subterm criterion, for one step alone. A projection
/// names argument places, from 1. (Hirokawa and Middeldorp, 2007.)
pub fn subterm_check(
    alloc: Global,
    trs: &Trs,
    all: &[DpPair],
    problem: &[u32],
    projection: &[(u32, u8)],
) -> Result<Vec<u32>, CheckFault>
    requires all { all.now ≡ placed_pairs trs.now.rules }
    requires numbers { All (λ n. n < length (dependency_pairs trs.now.rules)) problem.now }
    ensures answers { AnswersBy (λ left. left.items)
        (subterm_conditions (dependency_pairs trs.now.rules) projection.now problem.now) result }
{
    let pairs = Pairs::of(alloc, trs, all)?;
    pairs.subterm_check(alloc, problem, projection)
}

impl<'a> Pairs<'a> {
    /// The pairs of a problem that remain by the subterm criterion. It looks at the sides of the
    /// problem's pairs alone.
    pub fn subterm_check(
        &self,
        alloc: Global,
        problem: &[u32],
        projection: &[(u32, u8)],
    ) -> Result<Vec<u32>, CheckFault>
        requires numbers { All (λ n. n < length self.now) problem.now }
        ensures answers { AnswersBy (λ left. left.items)
            (subterm_conditions self.now projection.now problem.now) result }
    {
        let places = Places::new(alloc, projection)?;
        self.subterm_step(alloc, problem, &places)
    }

    /// The pairs that remain, where the places of the projection are at hand.
    fn subterm_step(
        &self,
        alloc: Global,
        problem: &[u32],
        projection: &Places,
    ) -> Result<Vec<u32>, CheckFault>
        requires numbers { All (λ n. n < length self.now) problem.now }
        ensures answers { AnswersBy (λ left. left.items)
            (subterm_conditions self.now projection.now problem.now) result }
    {
        entries_check(self.sides(), problem, projection)?;
        let removed = removed_pairs(alloc, self.sides(), problem, projection)?;
        left_over(alloc, problem, &removed)
    }
}

/// Sees that the root of each side of the problem's pairs has an entry.
fn entries_check(pairs: &[Sides], problem: &[u32], projection: &Places) -> Result<(), CheckFault>
    requires { All (λ n. n < length pairs.now) problem.now }
    ensures { (taken : List DependencyPair) → ArePairsOf pairs.now problem.now taken → Answers
        (ForbidsAny (IsMissing projection.now (roots_of taken)) NoEntry) result }
{
    match least_missing(pairs, problem, projection) {
        Some(f) => Err(CheckFault::Refused(StepRefused::NoEntry(f as u64))),
        None => Ok(()),
    }
}

/// The least root of a side of the problem's pairs that has no entry.
fn least_missing(pairs: &[Sides], problem: &[u32], projection: &Places) -> Option<u32>
    requires { All (λ n. n < length pairs.now) problem.now }
    ensures { (taken : List DependencyPair) → ArePairsOf pairs.now problem.now taken →
        IsLeastMissing projection.now (roots_of taken) result }
{
    let mut least = None;
    for n in problem {
        let sides = &pairs[*n as usize];
        least = with_side(least, projection, &sides.from);
        least = with_side(least, projection, &sides.to);
    }
    least
}

fn with_side(least: Option<u32>, projection: &Places, side: &Side) -> Option<u32>
    ensures { (symbols : List ℕ) → IsLeastMissing projection.now symbols least →
        IsLeastMissing projection.now (side.now.symbol ∷ symbols) result }
{
    with_root(least, projection, side.symbol)
}

/// The least symbol with no entry, with one symbol more.
fn with_root(least: Option<u32>, projection: &Places, f: u32) -> Option<u32>
    ensures { (symbols : List ℕ) → IsLeastMissing projection.now symbols least →
        IsLeastMissing projection.now (f ∷ symbols) result }
{
    match projection.place_for(f) {
        Some(_) => least,
        None => Some(lower(least, f)),
    }
}

/// The lower of the two numbers.
fn lower(least: Option<u32>, f: u32) -> u32
    ensures { (projection : List (ℕ × ℕ)) (symbols : List ℕ) → place_for projection f ≡ None →
        IsLeastMissing projection symbols least →
        IsLeastMissing projection (f ∷ symbols) (Some result) }
{
    match least {
        None => f,
        Some(g) => {
            if f < g {
                return f;
            }
            g
        }
    }
}

/// Of each pair of the problem, whether it is removed.
fn removed_pairs(
    alloc: Global,
    pairs: &[Sides],
    problem: &[u32],
    projection: &Places,
) -> Result<Vec<bool>, CheckFault>
    requires { All (λ n. n < length pairs.now) problem.now }
    ensures { (taken : List DependencyPair) → ArePairsOf pairs.now problem.now taken →
        AnswersBy (λ removed. removed.items)
        (collect (λ _ item. projects_within projection.now item.0 item.1)
        0 (zip problem.now taken))
        result }
{
    let mut removed = Vec::new(alloc);
    for n in problem {
        let sides = &pairs[*n as usize];
        let flag = is_removed(projection, *n, sides)?;
        add(&mut removed, flag)?;
    }
    Ok(removed)
}

/// The numbers of the pairs that remain. One must be removed.
pub(crate) fn left_over(
    alloc: Global,
    problem: &[u32],
    removed: &[bool],
) -> Result<Vec<u32>, CheckFault>
    requires { length removed.now ≡ length problem.now }
    ensures { AnswersBy (λ left. left.items) (Then (Needs (In true removed.now) NothingRemoved)
        (λ _. Returns (unflagged problem.now removed.now))) result }
{
    if !is_any(removed) {
        return Err(CheckFault::Refused(StepRefused::NothingRemoved));
    }
    Ok(remaining(alloc, problem, removed)?)
}

fn is_any(flags: &[bool]) -> bool
    ensures { IsTrue result ↔ In true flags.now }
{
    for flag in flags {
        if *flag {
            return true;
        }
    }
    false
}

pub(crate) fn add(flags: &mut Vec<bool>, flag: bool) -> Result<(), OutOfMemory>
    ensures { OnOk result (flags.new.items ≡ flags.old.items ++ flag ∷ []) }
{
    flags.push(flag)?;
    Ok(())
}

/// Whether the right side of pair number `n` projects to a proper subterm of what its left side
/// projects to. It must be a subterm.
fn is_removed(projection: &Places, n: u32, sides: &Sides) -> Result<bool, CheckFault>
    ensures { AnswersBy (λ removed. removed) (projects_within projection.now n sides.now) result }
{
    let Some(left) = project(projection, &sides.from) else {
        return Err(CheckFault::Refused(StepRefused::PairNotWeak(n as u64)));
    };
    let Some(right) = project(projection, &sides.to) else {
        return Err(CheckFault::Refused(StepRefused::PairNotWeak(n as u64)));
    };
    match containment_in(left, right) {
        Containment::Equal => Ok(false),
        Containment::Proper => Ok(true),
        Containment::Missing => Err(CheckFault::Refused(StepRefused::PairNotWeak(n as u64))),
    }
}

/// The numbers at which the flag is false.
fn remaining(alloc: Global, problem: &[u32], removed: &[bool]) -> Result<Vec<u32>, OutOfMemory>
    requires { length removed.now ≡ length problem.now }
    ensures { IfOk result (λ left. left.items ≡ unflagged problem.now removed.now) }
{
    let mut left = Vec::new(alloc);
    for (i, n) in problem.iter().enumerate() {
        keep(&mut left, *n, removed[i])?;
    }
    Ok(left)
}

fn keep(left: &mut Vec<u32>, n: u32, removed: bool) -> Result<(), OutOfMemory>
    ensures { OnOk result (left.new.items
        ≡ left.old.items ++ unflagged (n ∷ []) (removed ∷ [])) }
{
    if !removed {
        left.push(n)?;
    }
    Ok(())
}
