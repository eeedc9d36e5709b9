ghost use Rattle.std.specs.Prelude.{◌≡◌, ◌≤◌, ◌^◌, ℕ, List, IfOk, length};
ghost use Rattle.ari_text.specs.Problem.{SaysSystem};
ghost use Rattle.completion_text.specs.Answers.{IsCompletionAnswer, IsOrderAnswer};

use crate::completing::completion_text;
use crate::reading::read_order;
use crate::refused::OrderRefused;
use ari_text::{AriFault, read_problem};
use names_text::NamedTrs;
use std::alloc::Global;
use trs_core::OutOfMemory;

/// What is answered for a problem text and an order text.
#[derive(Drop)]
pub enum CompletionAnswer {
    /// The text of how completion ends.
    Ended(Vec<u8>),
    /// The problem text has no system.
    ProblemRefused(AriFault),
    /// The order text is refused at this place.
    OrderRefused(u32),
}

/// Completes the rules of a problem text, read as equations, by the order of an order text, within
/// a budget of units. The order text is read only where the problem text has a system.
pub fn complete_texts(
    alloc: Global,
    problem: &[u8],
    order: &[u8],
    budget: u64,
) -> Result<CompletionAnswer, OutOfMemory>
    requires problem { length problem.now ≤ 2 ^ 31 }
    requires order { length order.now ≤ 2 ^ 31 }
    ensures { IfOk result (IsCompletionAnswer problem.now order.now budget) }
{
    match read_problem(alloc, problem) {
        Ok(system) => complete_by_text(alloc, &system, order, budget),
        Err(AriFault::OutOfMemory) => Err(OutOfMemory),
        Err(fault) => Ok(CompletionAnswer::ProblemRefused(fault)),
    }
}

// What is answered for a system and an order text.
#[tactic(auto, using(crate::proofs::Completed::is_completed))]
fn complete_by_text(
    alloc: Global,
    system: &NamedTrs,
    order: &[u8],
    budget: u64,
) -> Result<CompletionAnswer, OutOfMemory>
    requires { length order.now ≤ 2 ^ 31 }
    ensures { IfOk result (IsOrderAnswer system.now order.now budget) }
{
    match read_order(alloc, system, order) {
        Ok(order) => Ok(CompletionAnswer::Ended(completion_text(alloc, system, &order, budget)?)),
        Err(OrderRefused::At(at)) => Ok(CompletionAnswer::OrderRefused(at)),
        Err(OrderRefused::OutOfMemory) => Err(OutOfMemory),
    }
}
