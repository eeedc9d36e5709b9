ghost use Rattle.std.specs.Prelude.{◌≡◌, IfOk};
ghost use Rattle.tree_core.specs.tree_definitions.Questions.{goal_count};
ghost use Rattle.tree_core.specs.tree_definitions.Verdicts.{HasVerdict};
ghost use Rattle.worker_pool.specs.Serial.{IsSerial};

use crate::Finished;
use crate::tables::tables_for;
use crate::turn::take_turn;
use std::alloc::Global;
use tree_core::{Limits, Question, Searcher, Tree};
use trs_core::{OutOfMemory, Trs};

/// Proves a question on a system with one worker, which has seat 0: it claims a task, runs it and
/// posts what was answered, until a verdict stands. It always returns.
pub fn prove_alone<'a>(
    alloc: Global,
    question: Question,
    trs: &'a Trs,
    limits: Limits,
) -> Result<Finished<'a>, OutOfMemory>
    ensures question { IfOk result (λ f. f.question ≡ question) }
    ensures system { IfOk result (λ f. f.system ≡ trs.now) }
    ensures budget { IfOk result (λ f. f.budget ≡ limits.budget) }

    // Each claim is followed by the post of what the strategy answers of the problem.
    ensures serial { IfOk result (λ f. IsSerial trs.now limits.budget f.history) }
    ensures verdict { IfOk result (λ f. HasVerdict (goal_count question) f.state) }
{
    let mut tree = Tree::new(alloc, question, trs, limits)?;
    let tables = tables_for(alloc, question, trs)?;
    let mut searcher = Searcher::new(&tables);
    while take_turn(alloc, &mut tree, &mut searcher)? {}
    Ok(Finished::new(tree))
}
