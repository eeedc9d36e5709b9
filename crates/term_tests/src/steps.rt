//! Steps, paths and loops, at the limits of terms too.
ghost use Rattle.term_pool.specs.Redexes.{IsNarrow};
ghost use Rattle.trs_core.specs.View.{tree};

use crate::made::{ones, repeat, term, tower};
use crate::texts::{ARITIES, system};
use rewrite_core::{
    CheckFault, PathFault, PathStep, StepFault, StepRefused, is_normal, loop_check, redexes,
    run_path, step_at,
};
use std::alloc::Global;
use std::test::Fail;
use trs_core::{OutOfMemory, Term, Trs};

/// `f(x) -> f(f(x))`, with the one symbol 0.
fn growing(alloc: Global) -> Result<Trs, Fail> {
    system(alloc, &[1], &[(b"a0", b"aa0")])
}

/// What a loop is refused for, of so many steps from a term, with its instance under so many
/// symbols.
fn refusal_of(
    alloc: Global,
    trs: &Trs,
    start: &Term,
    steps: u32,
    place: u32,
) -> Result<Option<CheckFault>, OutOfMemory> {
    let path = repeat(alloc, steps, 0)?;
    Ok(loop_check(alloc, trs, start, &path, &ones(alloc, place)?).err())
}

const REFUSED: [(u32, u32, Option<CheckFault>); 5] = [
    (1, 0, None),
    (1, 1, None),
    (1, 2, Some(CheckFault::Refused(StepRefused::NotInstance))),
    (1, 3, Some(CheckFault::Refused(StepRefused::NoPlace))),
    (0, 0, Some(CheckFault::Refused(StepRefused::NoSteps))),
];

#[test]
fn a_growing_term_loops(rt: HostRuntime) -> Result<(), Fail> {
    let trs = growing(rt.alloc())?;
    let start = tower(rt.alloc(), 0, 1, Term::Var(7))?;
    for (steps, place, want) in &REFUSED {
        let found = refusal_of(rt.alloc(), &trs, &start, *steps, *place)?;
        assert!(rt; found == *want, "at {place}");
    }
    Ok(())
}

/// Whether a term is in normal form by that rule.
fn has_no_redex(alloc: Global, t: &Term) -> Result<bool, Fail> {
    let trs = growing(alloc)?;
    Ok(is_normal(alloc, &trs, t)?)
}

/// How many redexes a term has by that rule.
fn count_redexes(alloc: Global, t: &Term) -> Result<usize, Fail>
    requires { IsNarrow (tree t.now) }
{
    let trs = growing(alloc)?;
    Ok(redexes(alloc, &trs, t)?.len())
}

#[test]
fn a_growing_term_has_a_redex(rt: HostRuntime) -> Result<(), Fail> {
    let start = term(rt.alloc(), 0, [Term::Var(7)])?;
    assert!(rt; !has_no_redex(rt.alloc(), &start)?);
    assert!(rt; has_no_redex(rt.alloc(), &Term::Var(7))?);
    assert!(rt; count_redexes(rt.alloc(), &start)? == 1);
    Ok(())
}

#[test]
fn a_reason_has_a_number_and_fields(rt: HostRuntime) {
    let reason = StepRefused::EdgeBack(7, 9);
    assert!(rt; reason.number() == 9);
    assert!(rt; reason.fields().as_slice() == [7, 9].as_slice());
}

/// A term as deep as the limit, by a step from one that is less deep by one.
fn deepest(alloc: Global, trs: &Trs) -> Result<Term, Fail> {
    let deep = tower(alloc, 0, 1_022, Term::Var(0))?;
    Ok(step_at(alloc, trs, &deep, &ones(alloc, 1_000)?, 0)?)
}

/// Why no step is made under so many symbols.
fn step_fault(
    alloc: Global,
    trs: &Trs,
    t: &Term,
    place: u32,
    rule: u32,
) -> Result<Option<StepFault>, Fail> {
    Ok(step_at(alloc, trs, t, &ones(alloc, place)?, rule).err())
}

const OF_THE_DEEPEST: [(u32, u32, StepFault); 5] = [
    (0, 0, StepFault::TooLarge),
    (1_022, 0, StepFault::TooLarge),
    (1_023, 0, StepFault::NoMatch),
    (1_024, 0, StepFault::NoPosition),
    (1_024, 1, StepFault::NoRule),
];

#[test]
fn a_term_is_no_deeper_than_the_limit(rt: HostRuntime) -> Result<(), Fail> {
    let alloc = rt.alloc();
    let trs = growing(alloc)?;
    let deepest = deepest(alloc, &trs)?;
    assert!(rt; deepest.depth() == 1_024);
    for (place, rule, want) in &OF_THE_DEEPEST {
        let found = step_fault(alloc, &trs, &deepest, *place, *rule)?;
        assert!(rt; found == Some(*want), "at {place}");
    }
    Ok(())
}

/// `d(x) -> p(x, x)`, with the symbols `d`, `p` and a constant.
fn doubling(alloc: Global) -> Result<Trs, Fail> {
    system(alloc, &[1, 2, 0], &[(b"a0", b"b00")])
}

/// Steps from the lowest of 16 symbols upward.
fn upward(alloc: Global, steps: u32) -> Result<Vec<PathStep>, OutOfMemory> {
    let mut path = Vec::new(alloc);
    for k in 0..steps {
        let place = ones(alloc, 15_u32.saturating_sub(k))?;
        path.push(PathStep { place, rule: 0 })?;
    }
    Ok(path)
}

/// 16 times `d` over a constant.
fn sixteen(alloc: Global) -> Result<Term, OutOfMemory> {
    tower(alloc, 0, 16, term(alloc, 2, [])?)
}

/// So many steps from 16 times `d` over a constant. Step `k` makes a term of 2 ^ (k + 2) - 1 nodes
/// under the 15 - k symbols `d` that are left.
fn double(alloc: Global, steps: u32) -> Result<Result<Term, PathFault>, Fail> {
    let trs = doubling(alloc)?;
    let start = sixteen(alloc)?;
    Ok(run_path(alloc, &trs, &start, &upward(alloc, steps)?))
}

#[test]
fn a_term_is_no_larger_than_the_limit(rt: HostRuntime) -> Result<(), Fail> {
    let alloc = rt.alloc();
    assert!(rt; double(alloc, 15)??.size() == 65_536);
    let found = double(alloc, 16)?.err();
    assert!(rt; found == Some(PathFault::At(15, StepFault::TooLarge)));
    Ok(())
}

/// A branch of 499 nodes.
fn branch(alloc: Global) -> Result<Term, OutOfMemory> {
    tower(alloc, 1, 498, term(alloc, 0, [])?)
}

/// A branch of the binary symbol 2, with a branch of 499 nodes at each of its nodes.
fn large(alloc: Global, branches: u32) -> Result<Term, OutOfMemory> {
    let mut made = term(alloc, 0, [])?;
    for _ in 0..branches {
        made = term(alloc, 2, [made, branch(alloc)?])?;
    }
    Ok(made)
}

/// The nodes after so many steps by `a -> a` under so many symbols.
fn nodes(alloc: Global, start: &Term, steps: u32, place: u32) -> Result<u64, Fail> {
    let trs = system(alloc, &ARITIES, &[(b"a", b"a")])?;
    Ok(run_path(alloc, &trs, start, &repeat(alloc, steps, place)?)?.size())
}

#[test]
fn long_paths_are_followed(rt: HostRuntime) -> Result<(), Fail> {
    let start = term(rt.alloc(), 0, [])?;
    assert!(rt; nodes(rt.alloc(), &start, 100_000, 0)? == 1);
    Ok(())
}

#[test]
fn long_paths_in_a_large_term_are_followed(rt: HostRuntime) -> Result<(), Fail> {
    let start = large(rt.alloc(), 60)?;
    assert!(rt; nodes(rt.alloc(), &start, 20_000, 60)? == 30_001);
    Ok(())
}

/// The nodes after so many steps by `p(x, y) -> x`, with the symbol 2 for `p`, below the root.
fn cut(alloc: Global, branches: u32, steps: u32) -> Result<Result<u64, PathFault>, Fail> {
    let trs = system(alloc, &ARITIES, &[(b"c01", b"0")])?;
    let start = large(alloc, branches)?;
    let path = repeat(alloc, steps, 1)?;
    Ok(match run_path(alloc, &trs, &start, &path) {
        Ok(end) => Ok(end.size()),
        Err(fault) => Err(fault),
    })
}

/// How many branches, how many steps, and what is found.
const CUT: [(u32, u32, Result<u64, PathFault>); 5] = [
    (132, 0, Ok(66_001)),
    (132, 1, Ok(65_501)),
    (132, 131, Ok(501)),
    (132, 132, Err(PathFault::At(131, StepFault::NoMatch))),
    (133, 1, Err(PathFault::At(0, StepFault::TooLarge))),
];

#[test]
fn the_start_of_a_path_may_pass_the_limits(rt: HostRuntime) -> Result<(), Fail> {
    for (branches, steps, want) in &CUT {
        let found = cut(rt.alloc(), *branches, *steps)?;
        assert!(rt; found == *want, "after {steps} steps");
    }
    Ok(())
}
