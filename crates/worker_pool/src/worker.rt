//! A worker: it claims tasks, runs them without the turn, and ends their tickets.
ghost use Rattle.std.specs.Prelude.{◌≡◌};
ghost use Rattle.tree_core.specs.cert_step.ProofProblem.{problem_of};
ghost use Rattle.tree_core.specs.tree_definitions.declared.question.Question.{Question as Asked};
ghost use Rattle.tree_core.specs.tree_definitions.Replies.{IsRunnable};
ghost use Rattle.turn_lock.specs.Seats.{After};
ghost use Rattle.worker_pool.specs.Shared.{HasEnded, HasTask, Opens};

use crate::gate::Gate;
use crate::seated::{abort, claim, post};
use crate::shared::SharedTree;
use crate::watch::Watch;
use std::alloc::Global;
use std::sync::Wait;
use tree_core::{Claimed, Limits, Question, Ran, Searcher, Tables, Task};
use trs_core::OutOfMemory;
use turn_lock::{Patience, Seat, TurnLock};

/// A seat beside its lock, what the shared tree is of, and the tables of its system, which are lent to all
/// workers. All are in one struct, so that a closure that takes them names the tree's lifetime once.
#[derive(Drop)]
pub(crate) struct Worker<'l, 'a> {
    pub(crate) lock: &'l TurnLock<SharedTree<'a>>,
    pub(crate) seat: Seat<SharedTree<'a>>,
    pub(crate) question: Question,
    pub(crate) tables: &'l Tables<'a>,
    pub(crate) limits: Limits,
    ghost fits: { seat.lock ≡ lock.now },
}

/// Claims and runs tasks until nothing more is claimed, or a claim is refused for want of memory.
pub(crate) fn work<'l, 'a, R: Wait, G: Gate>(
    rt: &R,
    alloc: Global,
    worker: Worker<'l, 'a>,
    gate: &G,
) -> Seat<SharedTree<'a>>
    requires { Opens worker.question worker.tables.now worker.limits.budget worker.seat.seen }
    ensures { After worker.entry.seat result }
{
    let Worker {
        lock,
        mut seat,
        question: _,
        tables,
        limits,
    } = worker;
    let mut searcher = Searcher::new(tables);
    let mut patience = Patience::new();
    for _ in rt.forever() {
        let (next, claimed) = claim(rt, alloc, lock, seat);
        match claimed {
            Ok(Claimed::Task(task)) => {
                gate.before(task.ticket);
                seat = run_task(rt, alloc, lock, next, &mut searcher, &task, &limits, gate);
                gate.after(task.ticket);
                patience = Patience::new();
            }
            Ok(Claimed::Again) => {
                patience.wait(rt);
                seat = next;
            }
            Ok(Claimed::Done) | Err(OutOfMemory) => return next,
        }
    }
    unreachable!()
}

// Runs a task that the seat has claimed, and ends its ticket.
fn run_task<'t, 'a, R: Wait, G: Gate>(
    rt: &R,
    alloc: Global,
    lock: &TurnLock<SharedTree<'a>>,
    seat: Seat<SharedTree<'a>>,
    searcher: &mut Searcher<'t, 'a>,
    task: &Task,
    limits: &Limits,
    gate: &G,
) -> Seat<SharedTree<'a>>
    requires lock { seat.lock ≡ lock.now }
    requires task { HasTask seat.number seat.mine task.now.ticket (problem_of task.now.problem)
        task.now.strategy }
    requires runnable { IsRunnable searcher.old task.now }
    requires opens { (question : Asked) × Opens question searcher.old limits.now.budget seat.seen }
    ensures after { After seat.entry result }
    ensures ended { HasEnded task.now.ticket result.mine }
    ensures searcher { searcher.new ≡ searcher.old }
{
    let mut watch = Watch::new(rt, gate, lock, seat, task.ticket);
    let ran = searcher.run(alloc, &task.problem, task.strategy, limits, &mut watch);
    let (seat, stops) = watch.leave();
    if stops > 0 {
        return seat;
    }
    match ran {
        Ok(Ran::Ended(outcome)) => post(rt, lock, seat, task.ticket, outcome),
        Ok(Ran::Stopped) => unreachable!(),
        Err(OutOfMemory) => abort(rt, lock, seat, task.ticket),
    }
}
