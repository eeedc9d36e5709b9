//! Questions about the system of a problem text, which a search for proofs answers.
ghost use Rattle.std.specs.Prelude.{◌≡◌, ◌≤◌, ℕ, List, IfOk, length};
ghost use Rattle.ari_text.specs.Problem.{SaysSystem};
ghost use Rattle.program_edge.specs.Conclusions.{question_of as question_of_tree, IsConclusion, conclusion_status, conclusion_text};
ghost use Rattle.program_edge.specs.Fetching.{most_problem_bytes};

use crate::status::Status;
use ari_text::{AriFault, read_problem};
use command_line::Question;
use conclusion::{Gate, answer_question, answer_question_with};
use names_text::NamedTrs;
use std::alloc::{AllocError, Global};
use std::mem::forget;
use std::sync::Wait;
use std::thread::Threads;

/// What is answered to a question about a problem text.
#[derive(Drop)]
pub enum Conclusion {
    /// The text that answers it: a certificate, or a report.
    Concluded(Vec<u8>),
    /// The problem text has no system.
    Refused(AriFault),
}

impl Conclusion {
    pub fn status(&self) -> Status
        ensures { result ≡ conclusion_status self.now }
    {
        match self {
            Conclusion::Concluded(_) => Status::Answered,
            Conclusion::Refused(_) => Status::Refused,
        }
    }
}

/// Answers a question about the system of a problem text, by the searches of one worker within a
/// budget.
pub fn conclude(
    alloc: Global,
    problem: &[u8],
    question: Question,
    budget: u64,
) -> Result<Conclusion, AllocError>
    requires { length problem.now ≤ most_problem_bytes }
    ensures { IfOk result (λ c.
        IsConclusion problem.now question 1 budget (conclusion_status c) (conclusion_text c)) }
{
    match read_problem(alloc, problem) {
        Ok(system) => conclude_about(alloc, &system, question, budget),
        Err(AriFault::OutOfMemory) => Err(AllocError),
        Err(fault) => Ok(Conclusion::Refused(fault)),
    }
}

/// The same for the last question of a process. The memory of the system is not given back: it goes
/// as a whole where the process ends.
pub fn conclude_last(
    alloc: Global,
    problem: &[u8],
    question: Question,
    budget: u64,
) -> Result<Conclusion, AllocError>
    requires { length problem.now ≤ most_problem_bytes }
    ensures { IfOk result (λ c.
        IsConclusion problem.now question 1 budget (conclusion_status c) (conclusion_text c)) }
{
    match read_problem(alloc, problem) {
        Ok(system) => {
            let conclusion = conclude_about(alloc, &system, question, budget);
            forget(system);
            conclusion
        }
        Err(AriFault::OutOfMemory) => Err(AllocError),
        Err(fault) => Ok(Conclusion::Refused(fault)),
    }
}

/// Answers a question about the system of a problem text, by the searches of several workers on one
/// proof tree. It may wait.
pub fn conclude_with<R: Threads + Wait + Sync, G: Gate>(
    rt: &R,
    alloc: Global,
    problem: &[u8],
    question: Question,
    budget: u64,
    workers: u32,
    gate: &G,
) -> Result<Conclusion, AllocError>
    requires size { length problem.now ≤ most_problem_bytes }
    requires workers { (2 ≤ workers) × (workers ≤ 16) }
    ensures { IfOk result (λ c.
        IsConclusion problem.now question workers budget (conclusion_status c) (conclusion_text c)) }
{
    match read_problem(alloc, problem) {
        Ok(system) => conclude_about_with(rt, alloc, &system, question, budget, workers, gate),
        Err(AriFault::OutOfMemory) => Err(AllocError),
        Err(fault) => Ok(Conclusion::Refused(fault)),
    }
}

// One worker's answer to a question about a system, for each text that says it.
fn conclude_about(
    alloc: Global,
    system: &NamedTrs,
    question: Question,
    budget: u64,
) -> Result<Conclusion, AllocError>
    ensures { (problem : List ℕ) → SaysSystem problem system.now → IfOk result (λ c.
        IsConclusion problem question 1 budget (conclusion_status c) (conclusion_text c)) }
{
    match answer_question(alloc, system, question_of(question), budget) {
        Ok(text) => Ok(Conclusion::Concluded(text)),
        Err(_) => Err(AllocError),
    }
}

// The same by several workers.
fn conclude_about_with<R: Threads + Wait + Sync, G: Gate>(
    rt: &R,
    alloc: Global,
    system: &NamedTrs,
    question: Question,
    budget: u64,
    workers: u32,
    gate: &G,
) -> Result<Conclusion, AllocError>
    requires { (2 ≤ workers) × (workers ≤ 16) }
    ensures { (problem : List ℕ) → SaysSystem problem system.now → IfOk result (λ c.
        IsConclusion problem question workers budget (conclusion_status c) (conclusion_text c)) }
{
    let asked = question_of(question);
    match answer_question_with(rt, alloc, system, asked, budget, workers, gate) {
        Ok(text) => Ok(Conclusion::Concluded(text)),
        Err(_) => Err(AllocError),
    }
}

// The question of the proof tree.
fn question_of(question: Question) -> conclusion::Question
    ensures { result ≡ question_of_tree question }
{
    match question {
        Question::Termination => conclusion::Question::Termination,
        Question::Confluence => conclusion::Question::Confluence,
        Question::Unique => conclusion::Question::Unique,
    }
}
