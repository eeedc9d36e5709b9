ghost use Rattle.std.specs.Prelude.{map, drop};
ghost use Rattle.std.specs.Process.{exit_status};
ghost use Rattle.std.specs.String.{string_bytes};
ghost use Rattle.std.specs.Vec.Iter.{into_iter_items};
ghost use Rattle.trsbatch.specs.Words.{batch_of};
ghost use Rattle.trsbatch.specs.Run.{IsRun, EndsWith, batch_given};

use crate::run::{batch_alone, run_batch};
use io_edge::{Shelf, Sink};
use program_edge::{OpenGate, Status, words_of};
use std::alloc::Global;
use std::env::Args;
use std::io;
use std::io::ErrorKind;
use std::process::ExitCode;
use std::thread::Threads;

/// Runs the program on the arguments as a host gives them, and answers the exit code of its status.
/// Arguments that are not text ask for nothing.
pub(crate) fn run_arguments<R: Threads + Sync, S: Shelf, K: Sink>(
    rt: &R,
    alloc: Global,
    arguments: io::Result<Args>,
    shelf: &mut S,
    out: &mut K,
) -> ExitCode
    ensures { EndsWith (batch_given arguments) (S.means shelf.old) (S.means shelf.new)
        (exit_status result) (K.means out.old) (K.means out.new) }
{
    ExitCode::from(status_for(rt, alloc, arguments, shelf, out).code())
}

fn status_for<R: Threads + Sync, S: Shelf, K: Sink>(
    rt: &R,
    alloc: Global,
    arguments: io::Result<Args>,
    shelf: &mut S,
    out: &mut K,
) -> Status
    ensures { IsRun (batch_given arguments) (S.means shelf.old) (S.means shelf.new)
        result (K.means out.old) (K.means out.new) }
{
    match arguments {
        Ok(arguments) => status_for_texts(rt, alloc, arguments, shelf, out),
        Err(error) if error.kind() == ErrorKind::OutOfMemory => Status::OutOfMemory,
        Err(_) => batch_alone(alloc, &[], shelf, out, &OpenGate),
    }
}

fn status_for_texts<R: Threads + Sync, S: Shelf, K: Sink>(
    rt: &R,
    alloc: Global,
    arguments: Args,
    shelf: &mut S,
    out: &mut K,
) -> Status
    ensures { IsRun (batch_of (map string_bytes (drop 1 (into_iter_items arguments))))
        (S.means shelf.old) (S.means shelf.new) result (K.means out.old) (K.means out.new) }
{
    let Ok(arguments) = arguments.collect::<Vec<String>>(alloc) else {
        return Status::OutOfMemory;
    };
    match words_of(alloc, &arguments) {
        Ok(words) => run_batch(rt, alloc, &words, shelf, out, &OpenGate),
        Err(_) => Status::OutOfMemory,
    }
}
