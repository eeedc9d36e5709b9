//! What is answered where one worker looks for proofs.
ghost use Rattle.std.specs.Prelude.{Some};
ghost use Rattle.command_line.specs.Request.{request_of, request_view, IsInRange};
ghost use Rattle.program_edge.specs.Words.{texts};
ghost use Rattle.trsprove.specs.Answered.{IsAnswered};
ghost use Rattle.trsprove.specs.Workers.{asked_of};

use crate::answer::Answer;
use crate::asking::ask;
use crate::certifying::certify;
use crate::completing::complete;
use crate::samples::sample;
use command_line::{Refused, Request, parse};
use io_edge::Shelf;
use std::alloc::{AllocError, Global};

/// What the words ask of one worker, by the texts of the shelf.
pub(crate) fn answer_for<'a, S: Shelf>(
    alloc: Global,
    words: &'a [&'a str],
    shelf: &mut S,
) -> Result<Answer<'a>, AllocError>
    ensures { IsAnswered (asked_of 1 (request_of (texts words.now)))
        (S.means shelf.old) (S.means shelf.new) result }
{
    match parse(alloc, words) {
        Ok(request) => answer_to(alloc, request, shelf),
        Err(Refused::Usage) => Ok(Answer::Usage),
        Err(Refused::OutOfMemory) => Err(AllocError),
    }
}

/// What a request asks of one worker, by the texts of the shelf.
pub(crate) fn answer_to<'a, S: Shelf>(
    alloc: Global,
    request: Request<'a>,
    shelf: &mut S,
) -> Result<Answer<'a>, AllocError>
    requires { IsInRange request }
    ensures { IsAnswered (asked_of 1 (Some (request_view request.entry)))
        (S.means shelf.old) (S.means shelf.new) result }
{
    match request {
        Request::Certify {
            wanted,
            problem,
            certificate,
        } => certify(alloc, shelf, wanted, problem, certificate),
        Request::Prove {
            question,
            problem,
            budget,
            ..
        } => ask(alloc, shelf, question, problem, budget),
        Request::Complete {
            problem,
            order,
            budget,
        } => complete(alloc, shelf, problem, order, budget),
        Request::Sample { size, budget, .. } => sample(alloc, size, budget),
    }
}
