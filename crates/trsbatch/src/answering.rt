//! The block of a problem: what one worker answers for it.
ghost use Rattle.std.specs.Prelude.{◌≡◌, ◌≤◌, [], IfOk, length, string_bytes};
ghost use Rattle.program_edge.specs.Conclusions.{IsConclusion, conclusion_text};
ghost use Rattle.program_edge.specs.Fetching.{most_problem_bytes, IsUnfetched, unfetched_line};
ghost use Rattle.trsbatch.specs.Problems.{IsWithinLimit, IsAnswerTo, IsBlockOf};

use crate::block::Block;
use crate::problem::Problem;
use command_line::Question;
use io_edge::{FetchFault, MemorySink, SinkFailed};
use program_edge::{Conclusion, Status, Unfetched, conclude, name_fault, put_refused};
use std::alloc::{AllocError, Global};

/// Room for the line of a problem text that has no system: its words and three numbers.
const REFUSED_ROOM: u64 = 96;

/// Room for the words of a line that names a text, beside the name.
const NAMED_ROOM: u64 = 32;

/// The block of a problem. Where memory is wanting, it says so, and has no text.
pub(crate) fn block_of(alloc: Global, problem: &Problem, question: Question, budget: u64) -> Block
    requires { IsWithinLimit problem.now }
    ensures { IsBlockOf question budget problem.now result }
{
    match answer_to(alloc, problem, question, budget) {
        Ok((status, text)) => Block { status, text },
        Err(AllocError) => Block {
            status: Status::OutOfMemory,
            text: Vec::new(alloc),
        },
    }
}

// The status of a problem, and the text that is written with it.
fn answer_to(
    alloc: Global,
    problem: &Problem,
    question: Question,
    budget: u64,
) -> Result<(Status, Vec<u8>), AllocError>
    requires { IsWithinLimit problem.now }
    ensures { IfOk result (λ a. IsAnswerTo question budget (string_bytes problem.now.name)
        problem.now.text a.0 a.1.items) }
{
    match &problem.text {
        Ok(text) => answer_text(alloc, text, question, budget),
        Err(fault) => answer_unfetched(alloc, problem.name.as_str(), *fault),
    }
}

// The answer for a problem text.
fn answer_text(
    alloc: Global,
    text: &[u8],
    question: Question,
    budget: u64,
) -> Result<(Status, Vec<u8>), AllocError>
    requires { length text.now ≤ most_problem_bytes }
    ensures { IfOk result (λ a. IsConclusion text.now question 1 budget a.0 a.1.items) }
{
    let conclusion = conclude(alloc, text, question, budget)?;
    let status = conclusion.status();
    Ok((status, text_of_conclusion(alloc, conclusion)?))
}

fn text_of_conclusion(alloc: Global, conclusion: Conclusion) -> Result<Vec<u8>, AllocError>
    ensures { IfOk result (λ text. text.items ≡ conclusion_text conclusion) }
{
    match conclusion {
        Conclusion::Concluded(text) => Ok(text),
        Conclusion::Refused(fault) => {
            let mut line = empty_sink(alloc, REFUSED_ROOM)?;
            match put_refused(&mut line, &fault) {
                Ok(()) => Vec::from_slice(alloc, line.taken()),
                Err(SinkFailed) => Err(AllocError),
            }
        }
    }
}

// A sink in memory with room for a line.
fn empty_sink(alloc: Global, room: u64) -> Result<MemorySink, AllocError>
    ensures { IfOk result (λ s. s.bytes ≡ []) }
{
    match MemorySink::new(alloc, room, Vec::new(alloc)) {
        Ok(sink) => Ok(sink),
        Err(_) => Err(AllocError),
    }
}

// The answer where the text was not fetched.
fn answer_unfetched(
    alloc: Global,
    name: &str,
    fault: FetchFault,
) -> Result<(Status, Vec<u8>), AllocError>
    ensures { IfOk result (λ a. IsUnfetched fault name.now a.0 a.1.items) }
{
    let unfetched = name_fault(name, fault)?;
    let room = NAMED_ROOM + name.len() as u64;
    Ok((
        unfetched.status(),
        text_of_unfetched(alloc, room, &unfetched)?,
    ))
}

fn text_of_unfetched(
    alloc: Global,
    room: u64,
    unfetched: &Unfetched<'_>,
) -> Result<Vec<u8>, AllocError>
    ensures { IfOk result (λ text. text.items ≡ unfetched_line unfetched.now) }
{
    let mut line = empty_sink(alloc, room)?;
    match unfetched.put(&mut line) {
        Ok(()) => Vec::from_slice(alloc, line.taken()),
        Err(SinkFailed) => Err(AllocError),
    }
}
