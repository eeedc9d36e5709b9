//! Several workers on one proof tree.
ghost use Rattle.std.specs.Prelude.{◌≡◌, ℕ, ◌+◌, ◌-◌, ◌<◌, ◌≤◌, IfOk};
ghost use denote.Param.Send.{IsSync};
ghost use mathlib.Core.List.{IsPrefix};
ghost use Rattle.tree_core.specs.tree_definitions.Questions.{goal_count};
ghost use Rattle.tree_core.specs.tree_definitions.Verdicts.{HasVerdict};
ghost use Rattle.turn_lock.specs.Seats.{Has, After};
ghost use Rattle.worker_pool.specs.Shared.{Opens};

use crate::Finished;
use crate::gate::Gate;
use crate::shared::SharedTree;
use crate::tables::shared_tables;
use crate::worker::{Worker, work};
use std::alloc::Global;
use std::sync::Wait;
use std::thread::{Threads, join};
use tree_core::{Limits, Question, Tree};
use trs_core::{OutOfMemory, Trs};
use turn_lock::{Seat, TurnLock};

/// Proves a question on a system with several workers, which claim tasks, run them beside each other
/// and post what was answered, until a verdict stands. Each has a thread of its own, the last one that
/// of the caller; a worker for which no thread can be made works after the others. It may wait; its
/// clauses hold if it returns. `gate` is a hook for tests.
pub fn prove_with<'a, R: Threads + Wait + Sync, G: Gate>(
    rt: &R,
    alloc: Global,
    question: Question,
    trs: &'a Trs,
    limits: Limits,
    workers: u32,
    gate: &G,
) -> Result<Finished<'a>, OutOfMemory>
    requires workers { (2 ≤ workers) × (workers ≤ 16) }
    ensures question { IfOk result (λ f. f.question ≡ question) }
    ensures system { IfOk result (λ f. f.system ≡ trs.now) }
    ensures budget { IfOk result (λ f. f.budget ≡ limits.budget) }
    ensures verdict { IfOk result (λ f. HasVerdict (goal_count question) f.state) }
{
    let tables = shared_tables(alloc, question, trs)?;
    let shared = SharedTree::new(alloc, question, trs, limits)?;
    let Ok((lock, seat)) = TurnLock::new(alloc, shared, workers) else {
        return Err(OutOfMemory);
    };
    let first = Worker {
        lock: &lock,
        seat,
        question,
        tables: &tables,
        limits,
    };
    let last = crew(rt, alloc, first, workers, gate);
    let SharedTree { tree } = lock.close(last);
    finish(tree)
}

// The tree, if a verdict stands on it. If none does, memory was wanting.
fn finish<'a>(tree: Tree<'a>) -> Result<Finished<'a>, OutOfMemory>
    ensures tree { IfOk result (λ f. f ≡ tree.entry) }
    ensures verdict { IfOk result (λ f. HasVerdict (goal_count f.question) f.state) }
{
    match tree.verdict() {
        Some(_) => Ok(Finished::new(tree)),
        None => Err(OutOfMemory),
    }
}

// So many workers, each but the last with a free number of the seat and in a thread of its own.
fn crew<'l, 'a, R: Threads + Wait + Sync, G: Gate>(
    rt: &R,
    alloc: Global,
    worker: Worker<'l, 'a>,
    workers: u32,
    gate: &G,
) -> Seat<SharedTree<'a>>
    requires opens { Opens worker.question worker.tables.now worker.limits.budget worker.seat.seen }
    requires room { worker.seat.free + workers ≤ worker.seat.seats + 1 }
    requires some { 0 < workers }
    ensures lock { result.lock ≡ worker.entry.seat.lock }
    ensures seats { result.seats ≡ worker.entry.seat.seats }
    ensures has { (x : ℕ) → Has worker.entry.seat x → Has result x }
    ensures seen { IsPrefix worker.entry.seat.seen result.seen }
{
    if workers == 1 {
        return work(rt, alloc, worker, gate);
    }
    let Worker {
        lock,
        seat,
        question,
        tables,
        limits,
    } = worker;
    let (old, new) = lock.split(seat);
    let one = Worker {
        lock,
        seat: new,
        question,
        tables,
        limits,
    };
    let others = Worker {
        lock,
        seat: old,
        question,
        tables,
        limits,
    };
    let (done, rest) = join(
        rt,
        || -> Seat<SharedTree>
            requires { Opens one.question one.tables.now one.limits.budget one.seat.seen }
            ensures { After one.entry.seat result }
        { work(rt, alloc, one, gate) },
        || -> Seat<SharedTree>
            requires { IsSync R.row
                × Opens others.question others.tables.now others.limits.budget others.seat.seen
                × (others.seat.free + (workers - 1) ≤ others.seat.seats + 1) × (1 < workers) }
            ensures { (result.lock ≡ others.entry.seat.lock)
                × (result.seats ≡ others.entry.seat.seats)
                × ((x : ℕ) → Has others.entry.seat x → Has result x)
                × IsPrefix others.entry.seat.seen result.seen }
        { crew(rt, alloc, others, workers - 1, gate) },
    );
    lock.join(rest, done)
}
