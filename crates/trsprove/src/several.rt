//! What is answered where so many workers look for proofs as are asked for.
ghost use Rattle.std.specs.Prelude.{Some};
ghost use Rattle.command_line.specs.Request.{request_of, request_view, IsInRange};
ghost use Rattle.program_edge.specs.Words.{texts};
ghost use Rattle.trsprove.specs.Answered.{IsAnswered};

use crate::alone::answer_to;
use crate::answer::Answer;
use crate::asking::ask_with;
use crate::samples::sample_with;
use command_line::{Refused, Request, parse};
use io_edge::Shelf;
use program_edge::Gate;
use std::alloc::{AllocError, Global};
use std::sync::Wait;
use std::thread::Threads;

/// What the words ask for, by the texts of the shelf.
pub(crate) fn answer_with<'a, R: Threads + Wait + Sync, S: Shelf, G: Gate>(
    rt: &R,
    alloc: Global,
    words: &'a [&'a str],
    shelf: &mut S,
    gate: &G,
) -> Result<Answer<'a>, AllocError>
    ensures { IsAnswered (request_of (texts words.now))
        (S.means shelf.old) (S.means shelf.new) result }
{
    match parse(alloc, words) {
        Ok(request) => answer_to_with(rt, alloc, request, shelf, gate),
        Err(Refused::Usage) => Ok(Answer::Usage),
        Err(Refused::OutOfMemory) => Err(AllocError),
    }
}

// What a request asks for, by the texts of the shelf.
fn answer_to_with<'a, R: Threads + Wait + Sync, S: Shelf, G: Gate>(
    rt: &R,
    alloc: Global,
    request: Request<'a>,
    shelf: &mut S,
    gate: &G,
) -> Result<Answer<'a>, AllocError>
    requires { IsInRange request }
    ensures { IsAnswered (Some (request_view request.entry))
        (S.means shelf.old) (S.means shelf.new) result }
{
    match request {
        Request::Prove {
            question,
            problem,
            workers,
            budget,
        } => ask_with(rt, alloc, shelf, gate, question, problem, budget, workers),
        Request::Sample {
            size,
            workers,
            budget,
        } => sample_with(rt, alloc, gate, size, budget, workers),
        Request::Certify { .. } | Request::Complete { .. } => answer_to(alloc, request, shelf),
    }
}
