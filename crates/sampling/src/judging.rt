ghost use Rattle.std.specs.Prelude.{◌≡◌, ◌≤◌, ℕ, Some, IfOk};
ghost use Rattle.worker_pool.specs.tree_definitions.Replies.{IsVerdict};
ghost use Rattle.worker_pool.specs.tree_definitions.Questions.{goal_count};
ghost use Rattle.worker_pool.specs.tree_definitions.Verdicts.{HasVerdict};
ghost use Rattle.worker_pool.specs.tree_definitions.declared.question.Question.TheVariants.{Termination};
ghost use Rattle.sampling.specs.Judged.{IsTrueJudgement, IsSerialJudgement, IsJudgementOf};

use crate::Judgement;
use std::alloc::Global;
use std::sync::Wait;
use std::thread::Threads;
use trs_core::{OutOfMemory, Trs};
use worker_pool::{
    Claim, Gate, Limits, Question, Tree, Verdict, lost_goals_have_a_true_report, prove_alone,
    prove_with,
};

/// Judges by one worker whether a system terminates. The budget is how many refuted prefixes, or
/// attempts, each search may pass.
pub fn judge(alloc: Global, trs: &Trs, budget: u64) -> Result<Judgement, OutOfMemory>
    // There is a proof that is accepted, or a true report.
    ensures is_true { IfOk result (IsTrueJudgement trs.now budget) }

    // It is the verdict of the tree of the serial history, in which each claim is followed by the
    // post of what the strategy answers of the problem.
    ensures serial { IfOk result (IsSerialJudgement trs.now budget) }
{
    let finished = prove_alone(alloc, Question::Termination, trs, Limits { budget })?;
    judgement_of(alloc, finished.tree())
}

/// Judges as `judge` does, by several workers on one proof tree. It may wait.
pub(crate) fn judge_with<R: Threads + Wait + Sync, G: Gate>(
    rt: &R,
    alloc: Global,
    trs: &Trs,
    budget: u64,
    workers: u32,
    gate: &G,
) -> Result<Judgement, OutOfMemory>
    requires workers { (2 ≤ workers) × (workers ≤ 16) }
    ensures is_true { IfOk result (IsTrueJudgement trs.now budget) }
{
    let limits = Limits { budget };
    let finished = prove_with(rt, alloc, Question::Termination, trs, limits, workers, gate)?;
    judgement_of(alloc, finished.tree())
}

// The judgement of a tree on which a verdict stands.
fn judgement_of(alloc: Global, tree: &Tree<'_>) -> Result<Judgement, OutOfMemory>
    requires question { tree.now.question ≡ Termination }
    requires verdict { HasVerdict (goal_count tree.now.question) tree.now.state }
    ensures is_true { IfOk result (IsTrueJudgement tree.now.system tree.now.budget) }
    ensures of_tree { IfOk result (IsJudgementOf tree.now.state) }
{
    match tree.verdict() {
        Some(Verdict::Won(_)) => won(alloc, tree),
        Some(Verdict::Maybe) => Ok(judge_lost(tree)),
        None => unreachable!(),
    }
}

// The judgement where a goal was won: its certificate is accepted.
fn won(alloc: Global, tree: &Tree<'_>) -> Result<Judgement, OutOfMemory>
    requires question { tree.now.question ≡ Termination }
    requires won { (g : ℕ) × (tree.now.state.winner ≡ Some g) }
    ensures is_true { IfOk result (IsTrueJudgement tree.now.system tree.now.budget) }
    ensures of_tree { IfOk result (IsJudgementOf tree.now.state) }
{
    let proof = tree.certificate(alloc)?;
    match proof.claim {
        Claim::Terminating => Ok(Judgement::Proved),
        Claim::Nonterminating => Ok(Judgement::Refuted),
        _ => unreachable!(),
    }
}

// The judgement where both goals were lost: there is a true report.
fn judge_lost(tree: &Tree<'_>) -> Judgement
    requires question { tree.now.question ≡ Termination }
    requires lost { IsVerdict tree.now (Some Verdict.Maybe) }
    ensures is_true { IsTrueJudgement tree.now.system tree.now.budget result }
    ensures of_tree { IsJudgementOf tree.now.state result }
{
    lost_goals_have_a_true_report(tree);
    Judgement::Open
}
