//! The words of the program, `trsbatch <action> <list> [--workers N] [--budget B]`.
ghost use Rattle.std.specs.Prelude.{IfOk, map};
ghost use Rattle.command_line.specs.Request.{IsFrom1To};
ghost use Rattle.trsbatch.specs.Words.{AnswersBatch, batch_of};

use command_line::{Question, Refused, Request, parse};
use std::alloc::Global;

/// A question about the problems of a list. There are 1 to 16 workers, and a budget is from 1 to
/// 1,000,000.
#[derive(Clone, Copy, Debug)]
pub(crate) struct Batch<'a> {
    pub(crate) question: Question,
    /// The name of the list.
    pub(crate) list: &'a str,
    pub(crate) workers: u32,
    pub(crate) budget: u64,
}

/// What the words ask for, the program's name left out: those that ask `trsprove` a question about a
/// problem, with a list in its place. `Usage` comes exactly where they ask for nothing.
pub(crate) fn parse_batch<'a>(alloc: Global, words: &'a [&'a str]) -> Result<Batch<'a>, Refused>
    ensures answer { AnswersBatch result (batch_of (map (λ w. w.now) words.now)) }
    ensures workers { IfOk result (λ b. IsFrom1To 16 b.workers) }
    ensures budget { IfOk result (λ b. IsFrom1To 1000000 b.budget) }
{
    match parse(alloc, words) {
        Ok(
            Request::Prove {
                question,
                problem,
                workers,
                budget,
            },
        ) => Ok(Batch {
            question,
            list: problem,
            workers,
            budget,
        }),
        Ok(Request::Certify { .. }) | Ok(Request::Complete { .. }) | Ok(Request::Sample { .. }) =>
            Err(Refused::Usage),
        Err(refused) => Err(refused),
    }
}
