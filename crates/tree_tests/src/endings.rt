//! The certificate and the report of a tree, beside those of the plain state.
ghost use Rattle.std.specs.Prelude.{◌≡◌, ℕ, Some};
ghost use Rattle.worker_pool.specs.tree_core.tree_definitions.Replies.{IsVerdict};

use crate::events::numbers_of;
use crate::state::{Node, State};
use std::alloc::Global;
use trs_core::OutOfMemory;
use worker_pool::{
    Claim, Failure, GoalReport, Mark, NodeStep, Question, Report, Strategy, Tree, Verdict,
    strategies_of,
};

/// Whether the steps are those of the nodes in this order, numbered by their places in it.
fn are_steps(
    alloc: Global,
    state: &State,
    order: &[usize],
    steps: &[NodeStep],
) -> Result<bool, OutOfMemory> {
    let mut count = 0usize;
    for (i, n) in order.iter().enumerate() {
        if let Some(decided) = state.decision(*n) {
            let Some(step) = steps.get(count) else {
                return Ok(false);
            };
            let numbers = numbers_of(alloc, &step.step)?;
            if step.node != i as u64 || numbers.as_slice() != decided.shown.as_slice() {
                return Ok(false);
            }
            count = count.saturating_add(1);
        }
    }
    Ok(count == steps.len())
}

/// What each goal claims, in order.
fn claims(question: Question) -> [Claim; 3] {
    match question {
        Question::Termination => [
            Claim::Terminating,
            Claim::Nonterminating,
            Claim::Nonterminating,
        ],
        Question::Confluence => [Claim::Confluent, Claim::Confluent, Claim::Nonconfluent],
        Question::Unique => [Claim::Unique, Claim::Unique, Claim::Nonunique],
    }
}

/// Whether the certificate of the goal that was won is that of the state.
fn is_proof(alloc: Global, state: &State, tree: &Tree, goal: u32) -> Result<bool, OutOfMemory>
    requires { (g : ℕ) × (tree.now.state.winner ≡ Some g) }
{
    let proof = tree.certificate(alloc)?;
    let order = state.walk(alloc, goal)?;
    let claims = claims(tree.question());
    let is_claim = claims.get(goal as usize) == Some(&proof.claim);
    Ok(is_claim && are_steps(alloc, state, &order, &proof.steps)?)
}

/// The place of the first node in this order that is stuck, and the node.
fn first_stuck<'a>(state: &'a State, order: &[usize]) -> Option<(usize, &'a Node)> {
    for (place, n) in order.iter().enumerate() {
        let node = state.nodes.get(*n)?;
        if node.is_stuck() {
            return Some((place, node));
        }
    }
    None
}

fn failure(spent: bool) -> Failure {
    if spent {
        Failure::Spent
    } else {
        Failure::NotThere
    }
}

/// Whether each strategy of the node failed as it is said.
fn are_failures(node: &Node, failed: &[(Strategy, bool)]) -> bool {
    let strategies = strategies_of(&node.problem);
    for ((strategy, mark), (named, spent)) in strategies
        .iter()
        .zip(node.marks.iter())
        .zip(failed.iter())
    {
        if strategy != named || *mark != Mark::Failed(failure(*spent)) {
            return false;
        }
    }
    failed.len() == strategies.len()
}

fn is_part(
    alloc: Global,
    state: &State,
    goal: u32,
    part: &GoalReport,
) -> Result<bool, OutOfMemory> {
    let order = state.walk(alloc, goal)?;
    let Some((place, node)) = first_stuck(state, &order) else {
        return Ok(false);
    };
    Ok(
        part.goal == goal
            && part.node == place as u64
            && part.problem.same(&node.problem)
            && are_failures(node, &part.failed)
            && are_steps(alloc, state, &order, &part.steps)?,
    )
}

fn are_parts(alloc: Global, state: &State, report: &Report) -> Result<bool, OutOfMemory> {
    for (goal, part) in (0..state.goals).zip(report.goals.iter()) {
        if !is_part(alloc, state, goal, part)? {
            return Ok(false);
        }
    }
    Ok(report.goals.len() as u64 == u64::from(state.goals))
}

/// Whether the report is that of the state.
fn is_report(alloc: Global, state: &State, tree: &Tree) -> Result<bool, OutOfMemory>
    requires { IsVerdict tree.now (Some Verdict.Maybe) }
{
    let report = tree.report(alloc)?;
    are_parts(alloc, state, &report)
}

/// Whether the certificate or the report of the tree is that of the state.
pub fn ends_as(alloc: Global, state: &State, tree: &Tree) -> Result<bool, OutOfMemory> {
    match tree.verdict() {
        Some(Verdict::Won(goal)) => is_proof(alloc, state, tree, goal),
        Some(Verdict::Maybe) => is_report(alloc, state, tree),
        None => Ok(true),
    }
}
