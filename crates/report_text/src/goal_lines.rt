ghost use Rattle.std.specs.Prelude.{◌≡◌, ◌<◌, ◌++◌, ◌∷◌, [], Some, slice_get, map, OnOk};
ghost use Rattle.sexp_core.specs.Items.{items_of};
ghost use Rattle.sexp_core.specs.Printed.{text_of, spaced};
ghost use Rattle.names_text.specs.VariableNames.{underscores as underscores_of};
ghost use Rattle.step_text.specs.cert_step.ProofStep.{node_step_of};
ghost use Rattle.step_text.specs.Steps.{step_item};
ghost use Rattle.tree_definitions.specs.Questions.{goal_count};
ghost use Rattle.tree_definitions.specs.Reports.{part_of};
ghost use Rattle.report_text.specs.GoalLines.{goal_words, goal_item};

use crate::failures::put_failures;
use crate::problem_words::put_stuck;
use names_text::NamedTrs;
use path_text::PathNames;
use std::alloc::Global;
use step_text::{NodeStep, put_step};
use text_reading::put;
use tree_definitions::{GoalReport, Question, goals_of};
use trs_core::OutOfMemory;

/// The word of a goal of a question, by its number.
pub(crate) fn goal_word(question: Question, goal: usize) -> &'static [u8]
    requires { goal < goal_count question }
    ensures { slice_get (goal_words question) goal ≡ Some result.now }
{
    goals_of(question)[goal].word().as_bytes()
}

/// Appends the line of a goal with this word.
pub(crate) fn put_goal(
    alloc: Global,
    out: &mut Vec<u8>,
    system: &NamedTrs,
    underscores: usize,
    word: &[u8],
    goal: &GoalReport,
) -> Result<(), OutOfMemory>
    requires { underscores ≡ underscores_of system.now.names }
    ensures { OnOk result (out.new.items ≡ out.old.items
        ++ (text_of (goal_item system.now word.now (part_of goal.now)) ++ 10 ∷ [])) }
{
    put(out, b"(goal ")?;
    put(out, word)?;
    put_steps(alloc, out, system, underscores, &goal.steps)?;
    put_stuck(out, goal.node, &goal.problem)?;
    put_failures(out, &goal.failed)?;
    put(out, b")\n")?;
    Ok(())
}

/// Appends the texts of steps, with a blank before each.
fn put_steps(
    alloc: Global,
    out: &mut Vec<u8>,
    system: &NamedTrs,
    underscores: usize,
    steps: &[NodeStep],
) -> Result<(), OutOfMemory>
    requires { underscores ≡ underscores_of system.now.names }
    ensures { OnOk result (out.new.items ≡ out.old.items
        ++ spaced (items_of (map (step_item system.now []) (map node_step_of steps.now)))) }
{
    let no_names = PathNames::new(alloc);
    for step in steps {
        put(out, b" ")?;
        put_step(alloc, out, system, &no_names, underscores, step)?;
    }
    Ok(())
}
