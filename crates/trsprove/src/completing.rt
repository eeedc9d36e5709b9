//! Completion of the equations of a problem by an order, by the action `complete`.
ghost use Rattle.std.specs.Prelude.{◌≡◌, ◌≤◌, Some, IfOk, length};
ghost use Rattle.command_line.specs.Request.{completes};
ghost use Rattle.program_edge.specs.Fetching.{most_problem_bytes};
ghost use Rattle.trsprove.specs.Completions.{IsCompletion, most_order_bytes};
ghost use Rattle.trsprove.specs.Answered.{IsAnswered};
ghost use Rattle.trsprove.specs.Answers.{status_of, text_of};

use crate::answer::{Answer, not_fetched};
use completion_text::{CompletionAnswer, complete_texts};
use io_edge::Shelf;
use program_edge::MOST_PROBLEM_BYTES;
use std::alloc::{AllocError, Global};

/// The most bytes of an order text.
const MOST_ORDER_BYTES: u64 = 1_048_576;

/// The answer for the problem and the order under two names, within a budget.
pub(crate) fn complete<'a, S: Shelf>(
    alloc: Global,
    shelf: &mut S,
    problem: &'a str,
    order: &'a str,
    budget: u64,
) -> Result<Answer<'a>, AllocError>
    ensures { IsAnswered (Some (completes problem.now order.now budget))
        (S.means shelf.old) (S.means shelf.new) result }
{
    match shelf.fetch(problem, MOST_PROBLEM_BYTES) {
        Ok(problem_text) => match shelf.fetch(order, MOST_ORDER_BYTES) {
            Ok(order_text) => run_completion(alloc, &problem_text, &order_text, budget),
            Err(fault) => not_fetched(order, fault),
        },
        Err(fault) => not_fetched(problem, fault),
    }
}

/// The answer for two texts.
fn run_completion<'a>(
    alloc: Global,
    problem: &[u8],
    order: &[u8],
    budget: u64,
) -> Result<Answer<'a>, AllocError>
    requires problem { length problem.now ≤ most_problem_bytes }
    requires order { length order.now ≤ most_order_bytes }
    ensures { IfOk result (λ a.
        IsCompletion problem.now order.now budget (status_of a) (text_of a)) }
{
    match complete_texts(alloc, problem, order, budget) {
        Ok(CompletionAnswer::Ended(text)) => Ok(Answer::Answered(text)),
        Ok(CompletionAnswer::ProblemRefused(fault)) => Ok(Answer::Refused(fault)),
        Ok(CompletionAnswer::OrderRefused(at)) => Ok(Answer::OrderRefused(at)),
        Err(_) => Err(AllocError),
    }
}
