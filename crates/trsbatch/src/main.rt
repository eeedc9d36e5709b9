//! trsbatch: answers a question about each problem of a list, by workers beside each other. What is
//! written is what one worker would write.
#![tactic(auto)]

mod answer;
mod answering;
mod arguments;
mod beside;
#[cfg(test)]
mod beside_each_other;
mod block;
mod laws;
mod list;
mod list_lines;
mod listed;
mod longest_first;
mod placed;
mod problem;
mod report;
mod run;
mod words;

use crate::arguments::run_arguments;
use io_edge::{FileShelf, HostFiles, HostOutput, WriterSink};
use std::env;
use std::process::ExitCode;

fn main(rt: HostRuntime) -> ExitCode {
    let mut shelf = FileShelf::new(HostFiles::new(&rt), rt.alloc());
    let mut out = WriterSink::new(HostOutput::new(&rt));
    run_arguments(&rt, rt.alloc(), env::args(&rt), &mut shelf, &mut out)
}
