ghost use Rattle.std.specs.Prelude.{◌≡◌, [], OnOk};
ghost use Rattle.trs_core.specs.View.{tree};
ghost use Rattle.trs_defs.specs.WellFormed.{IsWellFormed};
ghost use Rattle.trs_defs.specs.Claims.{IsForked};
ghost use Rattle.trs_defs.specs.UniqueNormalForms.{IsSplit};
ghost use Rattle.rewrite_core.specs.Check.{AnswersBy, Answers};
ghost use Rattle.rewrite_core.specs.PathCheck.{Runs};
ghost use Rattle.rule_label.specs.closed_pairs.Ends.{made_of};
ghost use Rattle.cert_step.specs.Kind.{leaves};
ghost use Rattle.cert_step.specs.Subproblems.{problems_of};
ghost use Rattle.cert_step.specs.ForkKind.{end_conditions, fork_conditions};

use crate::Problem;
use crate::apply::keeps_system;
use crate::problem::no_problem;
use nonjoin::{Pool, apart_in_pool};
use rewrite_core::{
    CheckFault, ForkTest, PathStep, StepRefused, end_in_pool, end_of_path, is_normal,
};
use std::alloc::Global;
use trs_core::{Term, Trs};

/// A fork. It shows that a system is forked, as its ends are never joinable, or that it is split, as
/// they are different normal forms, and leaves no subproblem.
pub(crate) fn apply_fork(
    alloc: Global,
    trs: &Trs,
    start: &Term,
    left: &[PathStep],
    right: &[PathStep],
    test: ForkTest,
) -> Result<Vec<Problem>, CheckFault>
    ensures { AnswersBy problems_of (leaves []
        (fork_conditions trs.now.rules (tree start.now) left.now right.now test)) result }
{
    no_problem(alloc, fork_check(alloc, trs, start, left, right, test))
}

/// Sees that both paths lead from the start, to ends that pass the test. Then the system is forked,
/// and split where the ends are different normal forms. It refuses for the left path (path 0 of item
/// 0), for the right one (path 1), and then for an end that is no normal form (0 or 1), for equal
/// ends, or for caps that unify, whichever comes first.
/// (Baader and Nipkow, section 2.1; Zankl, Felgenhauer and Middeldorp, 2011.)
fn fork_check(
    alloc: Global,
    trs: &Trs,
    start: &Term,
    left: &[PathStep],
    right: &[PathStep],
    test: ForkTest,
) -> Result<(), CheckFault>
    ensures answers { Answers (fork_conditions trs.now.rules (tree start.now)
        left.now right.now test) result }
    ensures forked { OnOk result
        (IsWellFormed trs.now.arities (tree start.now) → IsForked trs.now) }
    ensures split { OnOk result
        (test ≡ ForkTest.Normal → IsWellFormed trs.now.arities (tree start.now) → IsSplit trs.now) }
{
    keeps_system(trs);
    match test {
        ForkTest::Normal => fork_to_normal_forms(alloc, trs, start, left, right),
        ForkTest::Apart => fork_by_caps(alloc, trs, start, left, right),
    }
}

/// Sees that both paths lead from the start, to different normal forms.
fn fork_to_normal_forms(
    alloc: Global,
    trs: &Trs,
    start: &Term,
    left: &[PathStep],
    right: &[PathStep],
) -> Result<(), CheckFault>
    ensures { Answers (fork_conditions trs.now.rules (tree start.now)
        left.now right.now ForkTest.Normal) result }
{
    let left_made = made_by_path(alloc, trs, start, left, 0)?;
    let right_made = made_by_path(alloc, trs, start, right, 1)?;
    different_normal_forms(
        alloc,
        trs,
        end_of(start, &left_made),
        end_of(start, &right_made),
    )
}

/// What a path of this number makes of the start: nothing, where it has no step. So it costs nothing
/// there.
fn made_by_path(
    alloc: Global,
    trs: &Trs,
    start: &Term,
    path: &[PathStep],
    number: u64,
) -> Result<Option<Term>, CheckFault>
    ensures { AnswersBy (made_of (tree start.now))
        (Runs trs.now.rules (tree start.now) path.now 0 number) result }
{
    if path.is_empty() {
        return Ok(None);
    }
    let end = end_of_path(alloc, trs, start, path, 0, number)?;
    Ok(Some(end))
}

/// The end of a path, by what was made of its start.
fn end_of<'a>(start: &'a Term, made: &'a Option<Term>) -> &'a Term
    ensures { tree result.now ≡ made_of (tree start.now) made.now }
{
    match made {
        Some(end) => end,
        None => start,
    }
}

/// Sees that both terms are normal forms, and that they differ. Where they are equal, the right one
/// is a normal form as the left one is, and is not looked at again.
fn different_normal_forms(
    alloc: Global,
    trs: &Trs,
    left: &Term,
    right: &Term,
) -> Result<(), CheckFault>
    ensures { Answers
        (end_conditions trs.now.rules ForkTest.Normal (tree left.now) (tree right.now)) result }
{
    if !is_normal(alloc, trs, left)? {
        return Err(CheckFault::Refused(StepRefused::NotNormal(0)));
    }
    if left.same(right) {
        return Err(CheckFault::Refused(StepRefused::SameEnds));
    }
    if !is_normal(alloc, trs, right)? {
        return Err(CheckFault::Refused(StepRefused::NotNormal(1)));
    }
    Ok(())
}

/// Sees that both paths lead from the start, to ends whose caps do not unify. Both are followed in
/// one pool, so that what they leave as it was is there once.
fn fork_by_caps(
    alloc: Global,
    trs: &Trs,
    start: &Term,
    left: &[PathStep],
    right: &[PathStep],
) -> Result<(), CheckFault>
    ensures { Answers (fork_conditions trs.now.rules (tree start.now)
        left.now right.now ForkTest.Apart) result }
{
    let mut pool = Pool::new(alloc);
    let id = pool.intern(alloc, start)?;
    let left_end = end_in_pool(alloc, &mut pool, trs, id, left, 0, 0)?;
    let right_end = end_in_pool(alloc, &mut pool, trs, id, right, 0, 1)?;
    if !apart_in_pool(alloc, &pool, trs, left_end, right_end)? {
        return Err(CheckFault::Refused(StepRefused::NotApart));
    }
    Ok(())
}
