//! trsprove: finds and certifies proofs of termination and confluence of term rewriting systems.
#![tactic(auto)]

mod alone;
mod answer;
mod arguments;
mod asking;
mod certifying;
mod completing;
#[cfg(test)]
mod faulty;
mod lines;
mod report;
mod run;
mod samples;
mod several;

use crate::arguments::run_arguments;
use io_edge::{FileShelf, HostFiles, HostOutput, WriterSink};
use program_edge::OpenGate;
use std::env;
use std::process::ExitCode;

fn main(rt: HostRuntime) -> ExitCode {
    let mut shelf = FileShelf::new(HostFiles::new(&rt), rt.alloc());
    let mut out = WriterSink::new(HostOutput::new(&rt));
    run_arguments(
        &rt,
        rt.alloc(),
        env::args(&rt),
        &mut shelf,
        &mut out,
        &OpenGate,
    )
}
