//! What is to be written, by what the words ask for and by the texts of the shelf.
ghost use Rattle.std.specs.Prelude.{◌≡◌, ◌≤◌, Some, IfOk};
ghost use Rattle.io_edge.specs.Shelf.{CanAskAgain};
ghost use Rattle.trsbatch.specs.Words.{batch_of, batch_view};
ghost use Rattle.program_edge.specs.Words.{texts};
ghost use Rattle.trsbatch.specs.Output.{IsAnswer, TouchesOnlyNeeded};
ghost use Rattle.trsbatch.specs.Answers.{status_of, text_of};

use crate::beside::{blocks_alone, blocks_beside};
use crate::block;
use crate::listed::{Listed, fetch_list};
use crate::words::{Batch, parse_batch};
use command_line::Refused;
use io_edge::Shelf;
use program_edge::{Gate, Status, Unfetched};
use std::alloc::{AllocError, Global};
use std::thread::Threads;

/// What is to be written.
#[derive(Drop)]
pub(crate) enum Answer<'a> {
    /// The blocks of the problems.
    Blocks(Vec<u8>),
    Usage,
    /// The list is refused at a line.
    Refused(u64),
    /// There is no list.
    Missing(Unfetched<'a>),
}

impl<'a> Answer<'a> {
    pub(crate) fn status(&self) -> Status
        ensures { result ≡ status_of self.now }
    {
        match self {
            Answer::Blocks(_) => Status::Answered,
            Answer::Usage => Status::Usage,
            Answer::Refused(_) => Status::Refused,
            Answer::Missing(unfetched) => unfetched.status(),
        }
    }
}

/// What the words ask for, by one worker.
pub(crate) fn answer_alone<'a, S: Shelf, G: Gate>(
    alloc: Global,
    words: &'a [&'a str],
    shelf: &mut S,
    gate: &G,
) -> Result<Answer<'a>, AllocError>
    ensures answer { IfOk result (λ a. IsAnswer (batch_of (texts words.now))
        (S.means shelf.old) (S.means shelf.new) (status_of a) (text_of a)) }
    ensures untouched { TouchesOnlyNeeded (batch_of (texts words.now))
        (S.means shelf.old) (S.means shelf.new) }
    ensures again { CanAskAgain (S.means shelf.old) (S.means shelf.new) }
{
    match parse_batch(alloc, words) {
        Ok(batch) => batch_answered_alone(alloc, &batch, shelf, gate),
        Err(Refused::Usage) => Ok(Answer::Usage),
        Err(Refused::OutOfMemory) => Err(AllocError),
    }
}

// The blocks of the problems of a list, by one worker; or why there are none.
fn batch_answered_alone<'a, S: Shelf, G: Gate>(
    alloc: Global,
    batch: &Batch<'a>,
    shelf: &mut S,
    gate: &G,
) -> Result<Answer<'a>, AllocError>
    ensures answer { IfOk result (λ a. IsAnswer (Some (batch_view batch.now))
        (S.means shelf.old) (S.means shelf.new) (status_of a) (text_of a)) }
    ensures untouched { TouchesOnlyNeeded (Some (batch_view batch.now))
        (S.means shelf.old) (S.means shelf.new) }
    ensures again { CanAskAgain (S.means shelf.old) (S.means shelf.new) }
{
    match fetch_list(alloc, batch.list, shelf)? {
        Listed::Problems(problems) => {
            let blocks = blocks_alone(alloc, &problems, batch.question, batch.budget, gate)?;
            Ok(Answer::Blocks(block::text_of(alloc, &problems, &blocks)?))
        }
        Listed::Refused(line) => Ok(Answer::Refused(line)),
        Listed::Missing(unfetched) => Ok(Answer::Missing(unfetched)),
    }
}

/// The same by several workers.
pub(crate) fn batch_answered_beside<'a, R: Threads + Sync, S: Shelf, G: Gate>(
    rt: &R,
    alloc: Global,
    batch: &Batch<'a>,
    shelf: &mut S,
    gate: &G,
) -> Result<Answer<'a>, AllocError>
    ensures answer { IfOk result (λ a. IsAnswer (Some (batch_view batch.now))
        (S.means shelf.old) (S.means shelf.new) (status_of a) (text_of a)) }
    ensures untouched { TouchesOnlyNeeded (Some (batch_view batch.now))
        (S.means shelf.old) (S.means shelf.new) }
    ensures again { CanAskAgain (S.means shelf.old) (S.means shelf.new) }
{
    match fetch_list(alloc, batch.list, shelf)? {
        Listed::Problems(problems) => {
            let workers = batch.workers;
            let blocks = blocks_beside(
                rt,
                alloc,
                &problems,
                batch.question,
                batch.budget,
                workers,
                gate,
            )?;
            Ok(Answer::Blocks(block::text_of(alloc, &problems, &blocks)?))
        }
        Listed::Refused(line) => Ok(Answer::Refused(line)),
        Listed::Missing(unfetched) => Ok(Answer::Missing(unfetched)),
    }
}
