ghost use Rattle.std.specs.Prelude.{map, drop};
ghost use Rattle.std.specs.Process.{exit_status};
ghost use Rattle.std.specs.String.{string_bytes};
ghost use Rattle.std.specs.Vec.Iter.{into_iter_items};
ghost use Rattle.command_line.specs.Request.{request_of};
ghost use Rattle.trsprove.specs.Run.{IsRun, EndsWith, request_given};

use crate::run::run;
use io_edge::{Shelf, Sink};
use program_edge::{Gate, Status, words_of};
use std::alloc::Global;
use std::env::Args;
use std::io;
use std::io::ErrorKind;
use std::process::ExitCode;
use std::sync::Wait;
use std::thread::Threads;

/// Runs the program on the arguments as a host gives them, and answers the exit code of its status.
/// Arguments that are not text ask for nothing.
pub(crate) fn run_arguments<R: Threads + Wait + Sync, S: Shelf, K: Sink, G: Gate>(
    rt: &R,
    alloc: Global,
    arguments: io::Result<Args>,
    shelf: &mut S,
    out: &mut K,
    gate: &G,
) -> ExitCode
    ensures { EndsWith (request_given arguments) (S.means shelf.old) (S.means shelf.new)
        (exit_status result) (K.means out.old) (K.means out.new) }
{
    ExitCode::from(status_for(rt, alloc, arguments, shelf, out, gate).code())
}

fn status_for<R: Threads + Wait + Sync, S: Shelf, K: Sink, G: Gate>(
    rt: &R,
    alloc: Global,
    arguments: io::Result<Args>,
    shelf: &mut S,
    out: &mut K,
    gate: &G,
) -> Status
    ensures { IsRun (request_given arguments) (S.means shelf.old) (S.means shelf.new)
        result (K.means out.old) (K.means out.new) }
{
    match arguments {
        Ok(arguments) => status_for_texts(rt, alloc, arguments, shelf, out, gate),
        Err(error) if error.kind() == ErrorKind::OutOfMemory => Status::OutOfMemory,
        Err(_) => run(rt, alloc, &[], shelf, out, gate),
    }
}

fn status_for_texts<R: Threads + Wait + Sync, S: Shelf, K: Sink, G: Gate>(
    rt: &R,
    alloc: Global,
    arguments: Args,
    shelf: &mut S,
    out: &mut K,
    gate: &G,
) -> Status
    ensures { IsRun (request_of (map string_bytes (drop 1 (into_iter_items arguments))))
        (S.means shelf.old) (S.means shelf.new) result (K.means out.old) (K.means out.new) }
{
    let Ok(arguments) = arguments.collect::<Vec<String>>(alloc) else {
        return Status::OutOfMemory;
    };
    match words_of(alloc, &arguments) {
        Ok(words) => run(rt, alloc, &words, shelf, out, gate),
        Err(_) => Status::OutOfMemory,
    }
}
