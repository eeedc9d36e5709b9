ghost use Rattle.std.specs.Prelude.{◌≡◌};
ghost use Rattle.trs_core.specs.View.{tree};
ghost use Rattle.rewrite_core.specs.Check.{Answers, AnswersBy, Needs};
ghost use Rattle.rewrite_core.specs.declared.checks.refusals.StepRefused.TheVariants.{EndsDiffer};
ghost use Rattle.rewrite_core.specs.PathCheck.{Runs};
ghost use Rattle.closed_pairs.specs.Ends.{ends_meet, made_of};

use rewrite_core::{CheckFault, PathStep, StepRefused, end_of_path, step_at};
use std::alloc::Global;
use trs_core::{Term, Trs};

/// A path of an item, with its number among the item's paths.
#[derive(Drop)]
pub(crate) struct ItemPath<'a> {
    pub start: &'a Term,
    pub steps: &'a [PathStep],
    pub number: u64,
}

/// Sees that two paths of an item lead to one term.
pub(crate) fn meet(
    alloc: Global,
    trs: &Trs,
    item: u64,
    first: &ItemPath,
    second: &ItemPath,
) -> Result<(), CheckFault>
    ensures { Answers (ends_meet trs.now.rules item
        (tree first.now.start.now) first.now.steps.now first.now.number
        (tree second.now.start.now) second.now.steps.now second.now.number) result }
{
    let first_made = run(alloc, trs, item, first)?;
    let second_made = run(alloc, trs, item, second)?;
    same_ends(
        end_of(first.start, &first_made),
        end_of(second.start, &second_made),
        item,
    )
}

/// What a path makes of its start: nothing, where it has no step. So it costs nothing there.
#[inline(always)]
pub(crate) fn run(
    alloc: Global,
    trs: &Trs,
    item: u64,
    path: &ItemPath,
) -> Result<Option<Term>, CheckFault>
    ensures { AnswersBy (made_of (tree path.now.start.now))
        (Runs trs.now.rules (tree path.now.start.now) path.now.steps.now item path.now.number)
        result }
{
    if path.steps.is_empty() {
        return Ok(None);
    }
    let end = end_of_steps(alloc, trs, item, path)?;
    Ok(Some(end))
}

/// The end of a path with steps. A step that stands alone is made on the term itself, with no pool.
fn end_of_steps(alloc: Global, trs: &Trs, item: u64, path: &ItemPath) -> Result<Term, CheckFault>
    ensures { AnswersBy tree
        (Runs trs.now.rules (tree path.now.start.now) path.now.steps.now item path.now.number)
        result }
{
    if let [step] = path.steps {
        if let Ok(end) = step_at(alloc, trs, path.start, &step.place, step.rule) {
            return Ok(end);
        }
    }
    end_of_path(alloc, trs, path.start, path.steps, item, path.number)
}

/// The end of a path, by what was made of its start.
pub(crate) fn end_of<'a>(start: &'a Term, made: &'a Option<Term>) -> &'a Term
    ensures { tree result.now ≡ made_of (tree start.now) made.now }
{
    match made {
        Some(end) => end,
        None => start,
    }
}

/// Sees that two ends of an item are equal.
pub(crate) fn same_ends(first: &Term, second: &Term, item: u64) -> Result<(), CheckFault>
    ensures { Answers (Needs (tree first.now ≡ tree second.now) (EndsDiffer item)) result }
{
    if first.same(second) {
        Ok(())
    } else {
        Err(CheckFault::Refused(StepRefused::EndsDiffer(item)))
    }
}
