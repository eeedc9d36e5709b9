//! Questions about a problem, which a search for proofs answers.
ghost use Rattle.std.specs.Prelude.{◌≡◌, ◌≤◌, Some, IfOk, length};
ghost use Rattle.command_line.specs.Request.{proves};
ghost use Rattle.program_edge.specs.Conclusions.{IsConclusion, conclusion_status, conclusion_text};
ghost use Rattle.program_edge.specs.Fetching.{most_problem_bytes};
ghost use Rattle.trsprove.specs.Answered.{IsAnswered};
ghost use Rattle.trsprove.specs.Answers.{status_of, text_of};

use crate::answer::{Answer, not_fetched};
use command_line::Question;
use io_edge::Shelf;
use program_edge::{Conclusion, Gate, MOST_PROBLEM_BYTES, conclude_last, conclude_with};
use std::alloc::{AllocError, Global};
use std::sync::Wait;
use std::thread::Threads;

/// The answer to a question about the problem under a name, by the searches of one worker within a
/// budget.
pub(crate) fn ask<'a, S: Shelf>(
    alloc: Global,
    shelf: &mut S,
    question: Question,
    problem: &'a str,
    budget: u64,
) -> Result<Answer<'a>, AllocError>
    ensures { IsAnswered (Some (proves question problem.now 1 budget))
        (S.means shelf.old) (S.means shelf.new) result }
{
    match shelf.fetch(problem, MOST_PROBLEM_BYTES) {
        Ok(text) => ask_about(alloc, question, budget, &text),
        Err(fault) => not_fetched(problem, fault),
    }
}

/// The answer to a question about the problem under a name, by the searches of so many workers
/// within a budget. Where they are several they may wait.
pub(crate) fn ask_with<'a, R: Threads + Wait + Sync, S: Shelf, G: Gate>(
    rt: &R,
    alloc: Global,
    shelf: &mut S,
    gate: &G,
    question: Question,
    problem: &'a str,
    budget: u64,
    workers: u32,
) -> Result<Answer<'a>, AllocError>
    requires workers { (1 ≤ workers) × (workers ≤ 16) }
    ensures { IsAnswered (Some (proves question problem.now workers budget))
        (S.means shelf.old) (S.means shelf.new) result }
{
    match shelf.fetch(problem, MOST_PROBLEM_BYTES) {
        Ok(text) => ask_about_with(rt, alloc, gate, question, budget, workers, &text),
        Err(fault) => not_fetched(problem, fault),
    }
}

// One worker's answer to a question about the system of a problem text.
fn ask_about<'a>(
    alloc: Global,
    question: Question,
    budget: u64,
    problem: &[u8],
) -> Result<Answer<'a>, AllocError>
    requires { length problem.now ≤ most_problem_bytes }
    ensures { IfOk result (λ a.
        IsConclusion problem.now question 1 budget (status_of a) (text_of a)) }
{
    let conclusion = conclude_last(alloc, problem, question, budget)?;
    Ok(answer_of(conclusion))
}

// The answer of so many workers to a question about the system of a problem text.
fn ask_about_with<'a, R: Threads + Wait + Sync, G: Gate>(
    rt: &R,
    alloc: Global,
    gate: &G,
    question: Question,
    budget: u64,
    workers: u32,
    problem: &[u8],
) -> Result<Answer<'a>, AllocError>
    requires size { length problem.now ≤ most_problem_bytes }
    requires workers { (1 ≤ workers) × (workers ≤ 16) }
    ensures { IfOk result (λ a.
        IsConclusion problem.now question workers budget (status_of a) (text_of a)) }
{
    if workers == 1 {
        return ask_about(alloc, question, budget, problem);
    }
    let conclusion = conclude_with(rt, alloc, problem, question, budget, workers, gate)?;
    Ok(answer_of(conclusion))
}

// The answer that a conclusion is.
fn answer_of<'a>(conclusion: Conclusion) -> Answer<'a>
    ensures status { status_of result ≡ conclusion_status conclusion }
    ensures text { text_of result ≡ conclusion_text conclusion }
{
    match conclusion {
        Conclusion::Concluded(text) => Answer::Answered(text),
        Conclusion::Refused(fault) => Answer::Refused(fault),
    }
}
