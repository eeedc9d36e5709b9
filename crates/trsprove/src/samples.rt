//! Samples: systems that are made from a number.
ghost use Rattle.std.specs.Prelude.{◌≡◌, ◌≤◌, IfOk};
ghost use Rattle.trsprove.specs.Answers.{status_of, text_of};
ghost use Rattle.trsprove.specs.Workers.{IsSampledBy};

use crate::answer::Answer;
use program_edge::{Gate, Status};
use sampling::{sample_line, sample_line_with};
use std::alloc::{AllocError, Global};
use std::sync::Wait;
use std::thread::Threads;

/// The line of the sample system of a number, which one worker judges by searches within a budget.
pub(crate) fn sample<'a>(alloc: Global, size: u32, budget: u64) -> Result<Answer<'a>, AllocError>
    requires { (1 ≤ size) × (size ≤ 512) }
    ensures status { IfOk result (λ a. status_of a ≡ Status.Answered) }
    ensures line { IfOk result (λ a. IsSampledBy 1 size budget (text_of a)) }
{
    match sample_line(alloc, size, budget) {
        Ok(line) => Ok(Answer::Answered(line)),
        Err(_) => Err(AllocError),
    }
}

/// The line of the sample system of a number, which so many workers judge by searches within a
/// budget. Where they are several they may wait.
pub(crate) fn sample_with<'a, R: Threads + Wait + Sync, G: Gate>(
    rt: &R,
    alloc: Global,
    gate: &G,
    size: u32,
    budget: u64,
    workers: u32,
) -> Result<Answer<'a>, AllocError>
    requires size { (1 ≤ size) × (size ≤ 512) }
    requires workers { (1 ≤ workers) × (workers ≤ 16) }
    ensures status { IfOk result (λ a. status_of a ≡ Status.Answered) }
    ensures line { IfOk result (λ a. IsSampledBy workers size budget (text_of a)) }
{
    if workers == 1 {
        return sample(alloc, size, budget);
    }
    match sample_line_with(rt, alloc, size, budget, workers, gate) {
        Ok(line) => Ok(Answer::Answered(line)),
        Err(_) => Err(AllocError),
    }
}
