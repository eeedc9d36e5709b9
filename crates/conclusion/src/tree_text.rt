//! The text of a proof tree on which a verdict stands.
ghost use Rattle.std.specs.Prelude.{◌≡◌, ◌<◌, ◌^◌, ℕ, Some, IfOk, length};
ghost use Rattle.report_text.specs.tree_definitions.Questions.{goal_count};
ghost use Rattle.report_text.specs.tree_definitions.Replies.{IsVerdict};
ghost use Rattle.report_text.specs.tree_definitions.Verdicts.{HasVerdict};
ghost use Rattle.conclusion.specs.TextOf.{IsTextOf};

use crate::print_proof;
use cert_text::NodeStep;
use names_text::NamedTrs;
use report_text::{Verdict, print_report};
use std::alloc::Global;
use trs_core::OutOfMemory;
use worker_pool::Tree;

/// The certificate of the goal that was won, or the report of the goals that were lost.
pub(crate) fn tree_text(
    alloc: Global,
    system: &NamedTrs,
    tree: &Tree<'_>,
) -> Result<Vec<u8>, OutOfMemory>
    requires system { tree.now.system ≡ system.now.system }
    requires verdict { HasVerdict (goal_count tree.now.question) tree.now.state }
    ensures { IfOk result (λ text. IsTextOf system.now tree.now text.items) }
{
    match tree.verdict() {
        Some(Verdict::Won(_)) => won_text(alloc, system, tree),
        Some(Verdict::Maybe) => lost_text(alloc, system, tree),
        None => unreachable!(),
    }
}

// The certificate of the goal that was won.
fn won_text(alloc: Global, system: &NamedTrs, tree: &Tree<'_>) -> Result<Vec<u8>, OutOfMemory>
    requires system { tree.now.system ≡ system.now.system }
    requires won { (g : ℕ) × (tree.now.state.winner ≡ Some g) }
    ensures { IfOk result (λ text. IsTextOf system.now tree.now text.items) }
{
    let proof = tree.certificate(alloc)?;
    lists_are_short(&proof.steps);
    let text = print_proof(alloc, system, proof.claim, proof.steps)?;
    Ok(text)
}

// A law, with nothing to run but the reading of the list: a list of steps has fewer than 2^63.
fn lists_are_short(steps: &[NodeStep])
    ensures { length steps.now < 2 ^ 63 }
{
    let _count = steps.len();
}

// The report of the goals that were lost.
fn lost_text(alloc: Global, system: &NamedTrs, tree: &Tree<'_>) -> Result<Vec<u8>, OutOfMemory>
    requires system { tree.now.system ≡ system.now.system }
    requires lost { IsVerdict tree.now (Some Verdict.Maybe) }
    ensures { IfOk result (λ text. IsTextOf system.now tree.now text.items) }
{
    let report = tree.report(alloc)?;
    let lines = print_report(alloc, system, tree.question(), &report)?;
    let mut text = Vec::from_slice(alloc, b"MAYBE\n")?;
    text.extend_from_slice(&lines)?;
    Ok(text)
}
