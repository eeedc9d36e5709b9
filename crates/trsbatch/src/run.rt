ghost use Rattle.std.specs.Prelude.{◌≡◌, Some};
ghost use Rattle.io_edge.specs.Edge.{Rose};
ghost use Rattle.trsbatch.specs.Words.{batch_of, batch_view};
ghost use Rattle.program_edge.specs.Words.{texts};
ghost use Rattle.program_edge.specs.Running.{CanRunAgain};
ghost use Rattle.trsbatch.specs.Output.{Writes, AnswersOnly, TouchesOnlyNeeded};
ghost use Rattle.trsbatch.specs.Run.{IsRun};

use crate::answer::{answer_alone, batch_answered_beside};
use crate::report::write_answer;
use crate::words::{Batch, parse_batch};
use io_edge::{Shelf, Sink};
use program_edge::{Gate, Status};
use std::alloc::Global;
use std::thread::Threads;

/// Runs the program with as many workers as the words ask for. The problems of the list are fetched
/// one after the other; then the workers answer the question about each, beside each other, whoever
/// is free the next, longer texts first, and the blocks are written in the order of the list. Where
/// the words ask for one worker or for nothing, its work is that of `batch_alone`. `gate` is a hook for tests: a worker
/// calls `before(i)` and `after(i)` round problem `i`.
pub fn run_batch<R: Threads + Sync, S: Shelf, K: Sink, G: Gate>(
    rt: &R,
    alloc: Global,
    words: &[&str],
    shelf: &mut S,
    out: &mut K,
    gate: &G,
) -> Status
    // The text that is written is the defined answer of the words and the texts, or names a fault
    // that came. A block for each name of the list, in order, has what one worker answers,
    // whatever the number of workers; each line of blocks is one put.
    ensures output { Writes (batch_of (texts words.now)) (S.means shelf.old) (S.means shelf.new)
        result (K.means out.old) (K.means out.new) }
    ensures write { result ≡ Status.WriteFault →
        Rose (K.means out.old).faults (K.means out.new).faults }

    // The status is that of the words and the list, unless a fault or want of memory comes.
    ensures only { AnswersOnly (batch_of (texts words.now)) (S.means shelf.old) result }

    // No other text is fetched than the list and those under its names.
    ensures untouched { TouchesOnlyNeeded (batch_of (texts words.now))
        (S.means shelf.old) (S.means shelf.new) }

    // It can be called again: no count fell, and the shelf tells the same texts.
    ensures again { CanRunAgain (S.means shelf.old) (S.means shelf.new)
        (K.means out.old) (K.means out.new) }
{
    match parse_batch(alloc, words) {
        Ok(batch) if batch.workers > 1 => run_beside(rt, alloc, &batch, shelf, out, gate),
        _ => batch_alone(alloc, words, shelf, out, gate),
    }
}

/// Runs the program with one worker, whatever number of workers the words ask for. It always
/// returns.
pub fn batch_alone<S: Shelf, K: Sink, G: Gate>(
    alloc: Global,
    words: &[&str],
    shelf: &mut S,
    out: &mut K,
    gate: &G,
) -> Status
    // As those of `run_batch`.
    ensures output { Writes (batch_of (texts words.now)) (S.means shelf.old) (S.means shelf.new)
        result (K.means out.old) (K.means out.new) }
    ensures write { result ≡ Status.WriteFault →
        Rose (K.means out.old).faults (K.means out.new).faults }
    ensures only { AnswersOnly (batch_of (texts words.now)) (S.means shelf.old) result }
    ensures untouched { TouchesOnlyNeeded (batch_of (texts words.now))
        (S.means shelf.old) (S.means shelf.new) }
    ensures again { CanRunAgain (S.means shelf.old) (S.means shelf.new)
        (K.means out.old) (K.means out.new) }
{
    let Ok(answer) = answer_alone(alloc, words, shelf, gate) else {
        return Status::OutOfMemory;
    };
    write_answer(&answer, out)
}

// Answers the question about the problems of a list, by several workers.
fn run_beside<R: Threads + Sync, S: Shelf, K: Sink, G: Gate>(
    rt: &R,
    alloc: Global,
    batch: &Batch<'_>,
    shelf: &mut S,
    out: &mut K,
    gate: &G,
) -> Status
    ensures { IsRun (Some (batch_view batch.now)) (S.means shelf.old) (S.means shelf.new)
        result (K.means out.old) (K.means out.new) }
{
    let Ok(answer) = batch_answered_beside(rt, alloc, batch, shelf, gate) else {
        return Status::OutOfMemory;
    };
    write_answer(&answer, out)
}
