//! One turn of a worker that is alone: a claim, and the post of what was answered.
ghost use Rattle.std.specs.Prelude.{◌≡◌, IfOk};
ghost use Rattle.tree_core.specs.tree_definitions.History.{Runs};
ghost use Rattle.tree_core.specs.tree_definitions.Replies.{event_of_found, IsPost, IsRunnable, IsTaskOf};
ghost use Rattle.worker_pool.specs.Turns.{IsAtRest, IsAnswerTo, IsTurn, IsOnSame};

use crate::laws::{histories_are_short, tickets_have_one_seat};
use assign_search::Never;
use std::alloc::Global;
use tree_core::{Claimed, Limits, Outcome, Posted, Ran, Searcher, Task, Tree};
use trs_core::OutOfMemory;

/// Claims a task, runs it and posts what was answered. Whether there was a task: if there was none,
/// a verdict stands.
pub(crate) fn take_turn<'t, 'a>(
    alloc: Global,
    tree: &mut Tree<'a>,
    searcher: &mut Searcher<'t, 'a>,
) -> Result<bool, OutOfMemory>
    requires rest { IsAtRest tree.old }
    requires searcher { searcher.old ≡ tree.old.system }
    ensures rest { IfOk result (λ _. IsAtRest tree.new) }
    ensures searcher { searcher.new ≡ searcher.old }
    ensures same { IfOk result (λ _. IsOnSame tree.old tree.new) }
    ensures turn { IfOk result (IsTurn tree.old tree.new) }
{
    let task = match tree.claim(alloc, 0)? {
        Claimed::Task(task) => task,
        Claimed::Again => unreachable!(),
        Claimed::Done => return Ok(false),
    };
    tickets_have_one_seat(tree);
    histories_are_short(tree);
    let limits = tree.limits();
    let outcome = run_task(alloc, searcher, &task, &limits)?;
    post(tree, task.ticket, outcome)?;
    histories_are_short(tree);
    Ok(true)
}

// Posts an outcome.
fn post<'a>(tree: &mut Tree<'a>, ticket: u64, outcome: Outcome<'a>) -> Result<Posted, OutOfMemory>
    requires running { Runs ticket tree.old.history }
    requires outcome { IsTaskOf tree.old ticket outcome }
    ensures { IfOk result
        (IsPost tree.old ticket (event_of_found outcome.entry.found) tree.new) }
{
    match tree.post(ticket, outcome) {
        Ok(posted) => Ok(posted),
        Err(_) => Err(OutOfMemory),
    }
}

// What the task's strategy answers. Nothing stops it.
fn run_task<'t, 'a>(
    alloc: Global,
    searcher: &mut Searcher<'t, 'a>,
    task: &Task,
    limits: &Limits,
) -> Result<Outcome<'a>, OutOfMemory>
    requires { IsRunnable searcher.old task.now }
    ensures searcher { searcher.new ≡ searcher.old }
    ensures answer { IfOk result (IsAnswerTo searcher.old limits.now.budget task.now) }
{
    match searcher.run(alloc, &task.problem, task.strategy, limits, &mut Never)? {
        Ran::Ended(outcome) => Ok(outcome),
        Ran::Stopped => unreachable!(),
    }
}
