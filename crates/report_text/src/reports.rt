ghost use Rattle.std.specs.Prelude.{◌≡◌, ◌≤◌, ◌++◌, length, map, OnOk, IfOk};
ghost use Rattle.sexp_core.specs.Items.{items_of};
ghost use Rattle.sexp_core.specs.Printed.{lines};
ghost use Rattle.names_text.specs.VariableNames.{underscores as underscores_of};
ghost use Rattle.tree_definitions.specs.Questions.{goal_count};
ghost use Rattle.tree_definitions.specs.Reports.{part_of};
ghost use Rattle.report_text.specs.GoalLines.{goal_words, goal_items, report_lines};

use crate::goal_lines::{goal_word, put_goal};
use names_text::{NamedTrs, underscores};
use std::alloc::Global;
use tree_definitions::{GoalReport, Question, Report};
use trs_core::OutOfMemory;

/// The text of a report: for each goal of the question, in order, a line
/// `(goal word step .. (stuck node problem) (failed strategy reason) ..)`, with one blank between
/// members. Steps are written as in certificates of version 1. A strategy failed for the reason
/// `none` where its search has no solution, `spent` where its budget was spent.
pub fn print_report(
    alloc: Global,
    system: &NamedTrs,
    question: Question,
    report: &Report,
) -> Result<Vec<u8>, OutOfMemory>
    requires goals { length report.now.goals.items ≡ goal_count question }
    ensures { IfOk result (λ text. text.items
        ≡ report_lines system.now question (map part_of report.now.goals.items)) }
{
    let mut out = Vec::new(alloc);
    put_goals(
        alloc,
        &mut out,
        system,
        underscores(system),
        question,
        &report.goals,
    )?;
    Ok(out)
}

/// Appends a line for each goal of a question.
fn put_goals(
    alloc: Global,
    out: &mut Vec<u8>,
    system: &NamedTrs,
    underscores: usize,
    question: Question,
    parts: &[GoalReport],
) -> Result<(), OutOfMemory>
    requires underscores { underscores ≡ underscores_of system.now.names }
    requires parts { length parts.now ≤ goal_count question }
    ensures { OnOk result (out.new.items ≡ out.old.items ++ lines (items_of
        (goal_items system.now (goal_words question) (map part_of parts.now)))) }
{
    for (i, part) in parts.iter().enumerate() {
        let word = goal_word(question, i);
        put_goal(alloc, out, system, underscores, word, part)?;
    }
    Ok(())
}
