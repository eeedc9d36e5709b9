ghost use Rattle.std.specs.Prelude.{◌≡◌, ◌≤◌, ◌++◌, IfOk, OnOk, length};
ghost use Rattle.pair_theory.specs.DependencyPair.{dependency_pairs};
ghost use Rattle.sampling.specs.Line.{IsSampleLine, IsSerialLine, judgement_word, line_of};

use crate::judging::judge_with;
use crate::{Judgement, judge, sample_system};
use dp_core::{dependency_pairs, placed_pairs_are_the_pairs};
use std::alloc::Global;
use std::sync::Wait;
use std::thread::Threads;
use text_reading::{put, put_number};
use trs_core::{OutOfMemory, Trs, systems_are_valid};
use worker_pool::Gate;

/// The line of the sample system of a number, which one worker judges by searches within a budget:
/// `rules <rules> pairs <dependency pairs> <proved, refuted or open>`, with a line feed.
pub fn sample_line(alloc: Global, size: u32, budget: u64) -> Result<Vec<u8>, OutOfMemory>
    requires { (1 ≤ size) × (size ≤ 512) }
    ensures line { IfOk result (λ line. IsSampleLine size budget line.items) }
    ensures serial { IfOk result (λ line. IsSerialLine size budget line.items) }
{
    let sample = sample_system(alloc, size)?;
    let judgement = judge(alloc, sample.trs(), budget)?;
    line_of(alloc, sample.trs(), judgement)
}

/// The line of the sample system of a number, which several workers judge on one proof tree. It may
/// wait.
pub fn sample_line_with<R: Threads + Wait + Sync, G: Gate>(
    rt: &R,
    alloc: Global,
    size: u32,
    budget: u64,
    workers: u32,
    gate: &G,
) -> Result<Vec<u8>, OutOfMemory>
    requires size { (1 ≤ size) × (size ≤ 512) }
    requires workers { (2 ≤ workers) × (workers ≤ 16) }
    ensures line { IfOk result (λ line. IsSampleLine size budget line.items) }
{
    let sample = sample_system(alloc, size)?;
    let judgement = judge_with(rt, alloc, sample.trs(), budget, workers, gate)?;
    line_of(alloc, sample.trs(), judgement)
}

// The line of a system.
fn line_of(alloc: Global, trs: &Trs, judgement: Judgement) -> Result<Vec<u8>, OutOfMemory>
    ensures { IfOk result (λ line. line.items ≡ line_of trs.now judgement) }
{
    let pairs = count_pairs(alloc, trs)?;
    let mut line = Vec::new(alloc);
    put(&mut line, b"rules ")?;
    put_number(&mut line, trs.rules().len() as u64)?;
    put(&mut line, b" pairs ")?;
    put_number(&mut line, pairs)?;
    put(&mut line, word_of(judgement))?;
    Ok(line)
}

// How many dependency pairs a system has.
fn count_pairs(alloc: Global, trs: &Trs) -> Result<u64, OutOfMemory>
    ensures { IfOk result (λ n. n ≡ length (dependency_pairs trs.now.rules)) }
{
    systems_are_valid(trs);
    placed_pairs_are_the_pairs();
    let pairs = dependency_pairs(alloc, trs)?;
    Ok(pairs.len() as u64)
}

// How the line ends.
fn word_of(judgement: Judgement) -> &'static [u8]
    ensures { result.now ≡ judgement_word judgement }
{
    match judgement {
        Judgement::Proved => b" proved\n",
        Judgement::Refuted => b" refuted\n",
        Judgement::Open => b" open\n",
    }
}
