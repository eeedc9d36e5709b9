//! Calls of a tree whose outcomes are held back, each with what it keeps of those.
ghost use Rattle.std.specs.Prelude.{◌≡◌, ◌++◌, ◌∷◌, [], List, Option, Some, None};
ghost use Rattle.std.specs.Prelude.{length, slice_get, slice_set, IfOk, IfSome, IsTrue, OnOk, OnErr};
ghost use Rattle.worker_pool.specs.tree_core.strategies.Runs.{Run};
ghost use Rattle.worker_pool.specs.tree_core.tree_definitions.History.{IsFresh, IsOwned, Runs};
ghost use Rattle.worker_pool.specs.tree_core.tree_definitions.Replies.{IfTask, IsRunnable};
ghost use Rattle.tree_tests.specs.Held.{AreHeld, IsHeld, IsAnswerTo, IsClaimed, after_poll};

use assign_search::Never;
use std::alloc::Global;
use trs_core::{OutOfMemory, Trs};
use worker_pool::{
    Aborted, Claimed, Limits, Outcome, Polled, Posted, Ran, Task, Tree, run_strategy,
};

/// Claims a task, and runs it. The inner answer is the tree's own.
pub fn claim<'a>(
    alloc: Global,
    tree: &mut Tree<'a>,
    held: &mut Vec<Option<Outcome<'a>>>,
    seat: u32,
) -> Result<Result<Claimed, OutOfMemory>, OutOfMemory>
    requires { AreHeld tree.old held.old.items }
    ensures { AreHeld tree.new held.new.items }
{
    match claim_task(alloc, tree, seat) {
        Ok(claimed) => {
            hold(alloc, tree, held, &claimed)?;
            Ok(Ok(claimed))
        }
        Err(refused) => Ok(Err(refused)),
    }
}

fn claim_task(alloc: Global, tree: &mut Tree, seat: u32) -> Result<Claimed, OutOfMemory>
    ensures keeps { (held : List (Option Run)) → AreHeld tree.old held → AreHeld tree.new held }
    ensures task { IfOk result (IfTask (IsClaimed tree.new)) }
{
    check_tree(tree);
    let claimed = tree.claim(alloc, seat)?;
    check_tree(tree);
    Ok(claimed)
}

fn hold<'a>(
    alloc: Global,
    tree: &Tree<'a>,
    held: &mut Vec<Option<Outcome<'a>>>,
    claimed: &Claimed,
) -> Result<(), OutOfMemory>
    requires held { AreHeld tree.now held.old.items }
    requires task { IfTask (IsClaimed tree.now) claimed.now }
    ensures { AreHeld tree.now held.new.items }
{
    match claimed {
        Claimed::Task(task) => hold_task(alloc, tree, held, task),
        _ => Ok(()),
    }
}

fn hold_task<'a>(
    alloc: Global,
    tree: &Tree<'a>,
    held: &mut Vec<Option<Outcome<'a>>>,
    task: &Task,
) -> Result<(), OutOfMemory>
    requires held { AreHeld tree.now held.old.items }
    requires task { IsClaimed tree.now task.now }
    ensures { AreHeld tree.now held.new.items }
{
    let trs = tree.system();
    let limits = tree.limits();
    let outcome = run_task(alloc, trs, task, &limits)?;
    push(held, task.ticket, outcome)
}

/// What the task's strategy answers.
fn run_task<'a>(
    alloc: Global,
    trs: &'a Trs,
    task: &Task,
    limits: &Limits,
) -> Result<Outcome<'a>, OutOfMemory>
    requires { IsRunnable trs.now task.now }
    ensures { IfOk result (IsAnswerTo trs.now limits.now.budget task.now) }
{
    match run_strategy(alloc, trs, &task.problem, task.strategy, limits, &mut Never)? {
        Ran::Ended(outcome) => Ok(outcome),
        Ran::Stopped => unreachable!(),
    }
}

/// Puts an outcome behind the others, if the ticket has that place.
fn push<'a>(
    held: &mut Vec<Option<Outcome<'a>>>,
    ticket: u64,
    outcome: Outcome<'a>,
) -> Result<(), OutOfMemory>
    ensures ok { OnOk result ((ticket ≡ length held.old.items)
        × (held.new.items ≡ held.old.items ++ Some outcome.entry ∷ [])) }
    ensures err { OnErr result (held.new.items ≡ held.old.items) }
{
    if ticket != held.len() as u64 {
        return Err(OutOfMemory);
    }
    held.reserve(1)?;
    held.push_reserved(Some(outcome));
    Ok(())
}

pub fn poll(tree: &mut Tree, ticket: u64) -> Polled
    requires { Runs ticket tree.old.history }
    ensures { (held : List (Option Run)) → AreHeld tree.old held
        → AreHeld tree.new (after_poll result held ticket) }
{
    let polled = tree.poll(ticket);
    polled
}

/// Posts what is held for a ticket that is running.
pub fn post<'a>(
    tree: &mut Tree<'a>,
    held: &mut Vec<Option<Outcome<'a>>>,
    ticket: u64,
) -> Result<Posted, OutOfMemory>
    requires { AreHeld tree.old held.old.items }
    ensures { AreHeld tree.new held.new.items }
{
    let taken = take_held(tree, held, ticket);
    post_taken(tree, ticket, taken)
}

fn post_taken<'a>(
    tree: &mut Tree<'a>,
    ticket: u64,
    taken: Option<Outcome<'a>>,
) -> Result<Posted, OutOfMemory>
    requires { IfSome taken (IsHeld tree.old ticket) }
    ensures { (held : List (Option Run)) → AreHeld tree.old held
        → AreHeld tree.new (slice_set held ticket None) }
{
    match taken {
        None => Err(OutOfMemory),
        Some(outcome) => post_outcome(tree, ticket, outcome),
    }
}

fn post_outcome<'a>(
    tree: &mut Tree<'a>,
    ticket: u64,
    outcome: Outcome<'a>,
) -> Result<Posted, OutOfMemory>
    requires { IsHeld tree.old ticket outcome }
    ensures { (held : List (Option Run)) → AreHeld tree.old held
        → AreHeld tree.new (slice_set held ticket None) }
{
    let posted = tree.post(ticket, outcome);
    answer_of(posted)
}

fn answer_of(posted: Result<Posted, Outcome>) -> Result<Posted, OutOfMemory> {
    match posted {
        Ok(posted) => Ok(posted),
        Err(_) => Err(OutOfMemory),
    }
}

pub fn end_by_abort(tree: &mut Tree, ticket: u64) -> Aborted
    requires { Runs ticket tree.old.history }
    ensures { (held : List (Option Run)) → AreHeld tree.old held
        → AreHeld tree.new (slice_set held ticket None) }
{
    let aborted = tree.abort(ticket);
    aborted
}

/// Whether an outcome is held for the ticket.
pub fn is_running(tree: &Tree, held: &[Option<Outcome>], ticket: u64) -> bool
    requires { AreHeld tree.now held.now }
    ensures { IsTrue result → Runs ticket tree.now.history }
{
    let _entries = tree.history_len();
    is_held(held, ticket)
}

fn is_held(held: &[Option<Outcome>], ticket: u64) -> bool
    ensures { IsTrue result → (o : Run) × (slice_get held.now ticket ≡ Some (Some o)) }
{
    match held.get(ticket as usize) {
        Some(slot) => slot.is_some(),
        None => false,
    }
}

/// What is held for the ticket is taken out.
fn take_held<'a>(
    tree: &Tree<'a>,
    held: &mut Vec<Option<Outcome<'a>>>,
    ticket: u64,
) -> Option<Outcome<'a>>
    requires { AreHeld tree.now held.old.items }
    ensures held { held.new.items ≡ slice_set held.old.items ticket None }
    ensures taken { IfSome result (IsHeld tree.now ticket) }
{
    take(held, ticket)
}

fn take<'a>(held: &mut Vec<Option<Outcome<'a>>>, ticket: u64) -> Option<Outcome<'a>>
    ensures held { held.new.items ≡ slice_set held.old.items ticket None }
    ensures taken { IfSome result (λ o. slice_get held.old.items ticket ≡ Some (Some o)) }
{
    let at = ticket as usize;
    if at >= held.len() {
        return None;
    }
    std::mem::replace(&mut held[at], None)
}

/// Nothing is held for the ticket any more.
pub fn clear(held: &mut Vec<Option<Outcome>>, ticket: u64)
    ensures { held.new.items ≡ slice_set held.old.items ticket None }
{
    let _taken = take(held, ticket);
}

/// What is held when a poll has answered this.
pub fn settle(held: &mut Vec<Option<Outcome>>, ticket: u64, polled: Polled)
    ensures { held.new.items ≡ after_poll polled held.old.items ticket }
{
    match polled {
        Polled::Go => (),
        Polled::Cancelled => clear(held, ticket),
    }
}

/// What is known of each tree. There is nothing to run.
fn check_tree(tree: &Tree)
    ensures owned { IsOwned tree.now.history }
    ensures fresh { IsFresh (length tree.now.state.tickets) tree.now.history }
{
    let _entries = tree.history_len();
}
