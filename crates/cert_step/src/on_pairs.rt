ghost use Rattle.std.specs.Prelude.{◌≡◌, IfOk};
ghost use Rattle.dp_graph.specs.GraphConditions.{lists_of};
ghost use Rattle.cert_step.specs.GraphKind.{group_problems};
ghost use Rattle.cert_step.specs.OnPairs.{problem_if_any};
ghost use Rattle.cert_step.specs.Subproblems.{GivesProblems, problems_of};

use crate::Problem;
use crate::problem::alone;
use rewrite_core::CheckFault;
use std::alloc::Global;
use trs_core::OutOfMemory;

/// What a step answers that removes pairs: the problem of those that remain, where there are any.
pub(crate) fn remaining(
    alloc: Global,
    checked: Result<Vec<u32>, CheckFault>,
) -> Result<Vec<Problem>, CheckFault>
    ensures { GivesProblems (λ left. problem_if_any left.items) checked result }
{
    match checked {
        Ok(left) => Ok(if_any(alloc, left)?),
        Err(fault) => Err(fault),
    }
}

/// What a step answers that splits a problem: the problem of each group.
pub(crate) fn split(
    alloc: Global,
    checked: Result<Vec<Vec<u32>>, CheckFault>,
) -> Result<Vec<Problem>, CheckFault>
    ensures { GivesProblems (λ groups. group_problems (lists_of groups.items)) checked result }
{
    match checked {
        Ok(groups) => Ok(of_groups(alloc, groups)?),
        Err(fault) => Err(fault),
    }
}

fn if_any(alloc: Global, pairs: Vec<u32>) -> Result<Vec<Problem>, OutOfMemory>
    ensures { IfOk result (λ problems. problems_of problems ≡ problem_if_any pairs.items) }
{
    if pairs.is_empty() {
        return Ok(Vec::new(alloc));
    }
    alone(alloc, Problem::Dp(pairs))
}

fn of_groups(alloc: Global, groups: Vec<Vec<u32>>) -> Result<Vec<Problem>, OutOfMemory>
    ensures { IfOk result (λ problems.
        problems_of problems ≡ group_problems (lists_of groups.items)) }
{
    let mut problems = Vec::with_capacity(alloc, groups.len())?;
    for group in groups {
        problems.push(Problem::Dp(group))?;
    }
    Ok(problems)
}
