ghost use Rattle.std.specs.Prelude.{◌≡◌, Option};
ghost use Rattle.io_edge.specs.Edge.{Rose};
ghost use Rattle.io_edge.specs.Shelf.{ShelfMeaning};
ghost use Rattle.command_line.specs.Request.{Asked, request_of};
ghost use Rattle.program_edge.specs.Words.{texts};
ghost use Rattle.program_edge.specs.Running.{CanRunAgain};
ghost use Rattle.trsprove.specs.Output.{Writes, AnswersOnly, TouchesOnlyNeeded, AnswersNoAbsence};
ghost use Rattle.trsprove.specs.Truth.{IsTrueAnswer};
ghost use Rattle.trsprove.specs.Completeness.{NoFaultRose, IsComplete};
ghost use Rattle.trsprove.specs.Workers.{asked_of};
ghost use Rattle.trsprove.specs.Answered.{IsAnswered};
ghost use Rattle.trsprove.specs.Run.{IsRun};

use crate::alone::answer_for;
use crate::answer::Answer;
use crate::report::put_answer;
use crate::several::answer_with;
use io_edge::{Shelf, Sink, SinkFailed};
use program_edge::{Gate, Status};
use std::alloc::{AllocError, Global};
use std::sync::Wait;
use std::thread::Threads;

/// Runs the program: reads what the words ask for, fetches the texts, and writes the answer. The
/// words are those of the command line, without the program's name. Where an action that proves
/// asks for several workers, they work on one proof tree and may wait for each other; the clauses
/// hold if it returns.
pub fn run<R: Threads + Wait + Sync, S: Shelf, K: Sink, G: Gate>(
    rt: &R,
    alloc: Global,
    words: &[&str],
    shelf: &mut S,
    out: &mut K,
    gate: &G,
) -> Status
    // The text that is written is the defined answer of the words and the texts, or names a fault
    // that came. Where a verdict is given, each line is one put.
    ensures output { Writes (request_of (texts words.now)) (S.means shelf.old) (S.means shelf.new)
        result (K.means out.old) (K.means out.new) }
    ensures write { result ≡ Status.WriteFault →
        Rose (K.means out.old).faults (K.means out.new).faults }

    // The defined answer is given, unless a fault or want of memory comes.
    ensures only { AnswersOnly (request_of (texts words.now)) (S.means shelf.old) result }

    // What is written is true of the system that the problem text says: the claim of a certificate
    // that is accepted or was found, a report, or how completion ends. A certificate that is
    // written, found or in version 2, is accepted for the problem text.
    ensures truth { result ≡ Status.Answered → IsTrueAnswer (request_of (texts words.now))
        (S.means shelf.old) (K.means out.old) (K.means out.new) }

    // No other text is fetched than those that are needed.
    ensures untouched { TouchesOnlyNeeded (request_of (texts words.now))
        (S.means shelf.old) (S.means shelf.new) }

    // Where the shelf tells that a text that is needed is not there, no answer is given.
    ensures absent { AnswersNoAbsence (request_of (texts words.now)) (S.means shelf.old) result }

    // Good words about good texts are answered, unless a fault rises or memory runs out: a question,
    // completion and a sample with status 0, a certificate with 0 where it is accepted, else with 1.
    ensures complete { NoFaultRose (S.means shelf.old) (S.means shelf.new)
        (K.means out.old) (K.means out.new) →
        IsComplete (request_of (texts words.now)) (S.means shelf.old) result }

    // It can be called again: no count fell, and the shelf tells the same texts.
    ensures again { CanRunAgain (S.means shelf.old) (S.means shelf.new)
        (K.means out.old) (K.means out.new) }
{
    finish(answer_with(rt, alloc, words, shelf, gate), out)
}

/// Runs the program with one worker, whatever number the words ask for. It waits for nobody and
/// always returns.
pub fn run_alone<S: Shelf, K: Sink>(
    alloc: Global,
    words: &[&str],
    shelf: &mut S,
    out: &mut K,
) -> Status
    // The clauses are those of `run`, as if one worker were asked for.
    ensures output { Writes (asked_of 1 (request_of (texts words.now)))
        (S.means shelf.old) (S.means shelf.new) result (K.means out.old) (K.means out.new) }
    ensures write { result ≡ Status.WriteFault →
        Rose (K.means out.old).faults (K.means out.new).faults }
    ensures only { AnswersOnly (asked_of 1 (request_of (texts words.now)))
        (S.means shelf.old) result }
    ensures truth { result ≡ Status.Answered →
        IsTrueAnswer (asked_of 1 (request_of (texts words.now)))
        (S.means shelf.old) (K.means out.old) (K.means out.new) }
    ensures untouched { TouchesOnlyNeeded (asked_of 1 (request_of (texts words.now)))
        (S.means shelf.old) (S.means shelf.new) }
    ensures absent { AnswersNoAbsence (asked_of 1 (request_of (texts words.now)))
        (S.means shelf.old) result }
    ensures complete { NoFaultRose (S.means shelf.old) (S.means shelf.new)
        (K.means out.old) (K.means out.new) →
        IsComplete (asked_of 1 (request_of (texts words.now))) (S.means shelf.old) result }
    ensures again { CanRunAgain (S.means shelf.old) (S.means shelf.new)
        (K.means out.old) (K.means out.new) }
{
    finish(answer_for(alloc, words, shelf), out)
}

// Puts an answer, if memory sufficed for it, and says how the run ends.
fn finish<K: Sink>(answer: Result<Answer<'_>, AllocError>, out: &mut K) -> Status
    ensures { (request : Option Asked) (before now : ShelfMeaning) →
        IsAnswered request before now answer.entry →
        IsRun request before now result (K.means out.old) (K.means out.new) }
{
    let Ok(answer) = answer else {
        return Status::OutOfMemory;
    };
    match put_answer(&answer, out) {
        Ok(()) => answer.status(),
        Err(SinkFailed) => Status::WriteFault,
    }
}
