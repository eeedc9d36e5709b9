ghost use Rattle.std.specs.Prelude.{◌≤◌, IfOk};
ghost use Rattle.conclusion.specs.Concludes.{Concludes};
ghost use Rattle.conclusion.specs.SerialText.{IsSerialText};

use crate::tree_text::tree_text;
use names_text::NamedTrs;
use report_text::{Limits, Question};
use std::alloc::Global;
use std::sync::Wait;
use std::thread::Threads;
use trs_core::OutOfMemory;
use worker_pool::{Gate, prove_alone, prove_with};

/// Answers a question about a system by one worker: where a goal of the question is won, with the
/// certificate of what it claims; where each is lost, with the line `MAYBE` and a line for each goal.
/// The budget is how many refuted prefixes, or attempts, each search may pass.
pub fn answer_question(
    alloc: Global,
    system: &NamedTrs,
    question: Question,
    budget: u64,
) -> Result<Vec<u8>, OutOfMemory>
    ensures concludes { IfOk result (λ text. Concludes system.now question budget text.items) }

    // It is read off the tree of the serial history, in which each claim is followed by the post of
    // what the strategy answers of the problem.
    ensures serial { IfOk result (λ text. IsSerialText system.now question budget text.items) }
{
    let finished = prove_alone(alloc, question, system.trs(), Limits { budget })?;
    tree_text(alloc, system, finished.tree())
}

/// Answers a question about a system as `answer_question` does, by several workers on one proof
/// tree. Which of the possible texts comes depends on how they take turns. It may wait.
pub fn answer_question_with<R: Threads + Wait + Sync, G: Gate>(
    rt: &R,
    alloc: Global,
    system: &NamedTrs,
    question: Question,
    budget: u64,
    workers: u32,
    gate: &G,
) -> Result<Vec<u8>, OutOfMemory>
    requires workers { (2 ≤ workers) × (workers ≤ 16) }
    ensures concludes { IfOk result (λ text. Concludes system.now question budget text.items) }
{
    let limits = Limits { budget };
    let finished = prove_with(rt, alloc, question, system.trs(), limits, workers, gate)?;
    tree_text(alloc, system, finished.tree())
}
