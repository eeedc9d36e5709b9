//! Turns of a seat: each takes the shared tree, makes one call of it, and gives it back.
ghost use Rattle.std.specs.Prelude.{◌≡◌, ℕ, IfOk};
ghost use Rattle.trs_defs.specs.System.{System};
ghost use Rattle.tree_core.specs.cert_step.ProofProblem.{problem_of};
ghost use Rattle.tree_core.specs.tree_definitions.declared.question.Question.{Question as Asked};
ghost use Rattle.tree_core.specs.tree_definitions.History.{Runs};
ghost use Rattle.tree_core.specs.tree_definitions.Replies.{IfTask, IsRunnable};
ghost use Rattle.turn_lock.specs.Seats.{After};
ghost use Rattle.worker_pool.specs.Shared.{tree_entries, HasEnded, HasTask, Opens};

use crate::shared::SharedTree;
use std::alloc::Global;
use std::sync::Wait;
use tree_core::{Claimed, Outcome, Polled};
use trs_core::OutOfMemory;
use turn_lock::{Seat, TurnLock};

/// Claims a task.
pub(crate) fn claim<'a, R: Wait>(
    rt: &R,
    alloc: Global,
    lock: &TurnLock<SharedTree<'a>>,
    seat: Seat<SharedTree<'a>>,
) -> (Seat<SharedTree<'a>>, Result<Claimed, OutOfMemory>)
    requires { seat.lock ≡ lock.now }
    ensures after { After seat.entry result.0 }
    ensures task { IfOk result.1 (IfTask (λ task. HasTask result.0.number result.0.mine
        task.ticket (problem_of task.problem) task.strategy)) }
    ensures runnable { (question : Asked) (system : System) (budget : ℕ)
        → Opens question system budget seat.entry.seen → IfOk result.1 (IfTask (IsRunnable system)) }
{
    let mut held = lock.take(rt, seat);
    let number = held.number();
    let claimed = held.value_mut().claim(alloc, number);
    (lock.give(held), claimed)
}

/// Asks whether the search for a ticket is to go on. If not, the ticket has ended.
pub(crate) fn poll<'a, R: Wait>(
    rt: &R,
    lock: &TurnLock<SharedTree<'a>>,
    seat: Seat<SharedTree<'a>>,
    ticket: u64,
) -> (Seat<SharedTree<'a>>, Polled)
    requires lock { seat.lock ≡ lock.now }
    requires runs { Runs ticket (tree_entries seat.mine) }
    ensures after { After seat.entry result.0 }
    ensures goes { result.1 ≡ Polled.Go → result.0.mine ≡ seat.entry.mine }
    ensures ended { result.1 ≡ Polled.Cancelled → HasEnded ticket result.0.mine }
{
    let mut held = lock.take(rt, seat);
    let number = held.number();
    let polled = held.value_mut().poll(number, ticket);
    (lock.give(held), polled)
}

/// Ends a ticket by what its search answered.
pub(crate) fn post<'a, R: Wait>(
    rt: &R,
    lock: &TurnLock<SharedTree<'a>>,
    seat: Seat<SharedTree<'a>>,
    ticket: u64,
    outcome: Outcome<'a>,
) -> Seat<SharedTree<'a>>
    requires lock { seat.lock ≡ lock.now }
    requires task { HasTask seat.number seat.mine ticket outcome.problem outcome.strategy }
    requires opens { (question : Asked) × Opens question outcome.system outcome.budget seat.seen }
    ensures after { After seat.entry result }
    ensures ended { HasEnded ticket result.mine }
{
    let mut held = lock.take(rt, seat);
    let number = held.number();
    let _not_posted = held.value_mut().post(number, ticket, outcome);
    lock.give(held)
}

/// Ends a ticket for want of memory.
pub(crate) fn abort<'a, R: Wait>(
    rt: &R,
    lock: &TurnLock<SharedTree<'a>>,
    seat: Seat<SharedTree<'a>>,
    ticket: u64,
) -> Seat<SharedTree<'a>>
    requires lock { seat.lock ≡ lock.now }
    requires runs { Runs ticket (tree_entries seat.mine) }
    ensures after { After seat.entry result }
    ensures ended { HasEnded ticket result.mine }
{
    let mut held = lock.take(rt, seat);
    let number = held.number();
    held.value_mut().abort(number, ticket);
    lock.give(held)
}
