ghost use Rattle.std.specs.Prelude.{◌≡◌, ◌++◌, ◌∷◌, map, OnOk};
ghost use Rattle.sexp_core.specs.Items.{items_of};
ghost use Rattle.sexp_core.specs.Printed.{text_of, spaced};
ghost use Rattle.text_reading.specs.Printed.{number_item};
ghost use Rattle.step_text.specs.cert_step.ProofProblem.{problem_of};
ghost use Rattle.report_text.specs.GoalLines.{problem_items, stuck_item};

use step_text::Problem;
use text_reading::{put, put_number};
use trs_core::OutOfMemory;

/// Appends `(stuck node problem)`, behind a blank.
pub(crate) fn put_stuck(out: &mut Vec<u8>, node: u64, problem: &Problem) -> Result<(), OutOfMemory>
    ensures { OnOk result (out.new.items
        ≡ out.old.items ++ 32 ∷ text_of (stuck_item node (problem_of problem.now))) }
{
    put(out, b" (stuck ")?;
    put_number(out, node)?;
    put_problem(out, problem)?;
    put(out, b")")?;
    Ok(())
}

/// Appends a problem by its word, and the numbers of its pairs, with a blank before each.
fn put_problem(out: &mut Vec<u8>, problem: &Problem) -> Result<(), OutOfMemory>
    ensures { OnOk result (out.new.items
        ≡ out.old.items ++ spaced (items_of (problem_items (problem_of problem.now)))) }
{
    match problem {
        Problem::Sn => put(out, b" sn")?,
        Problem::Dp(pairs) => {
            put(out, b" dp")?;
            put_pairs(out, pairs)?;
        }
        Problem::Loop => put(out, b" loop")?,
        Problem::Cr => put(out, b" cr")?,
        Problem::CrNewman => put(out, b" cr-newman")?,
        Problem::Fork => put(out, b" fork")?,
        Problem::Unr => put(out, b" unr")?,
        Problem::UnrNewman => put(out, b" unr-newman")?,
        Problem::Split => put(out, b" split")?,
    }
    Ok(())
}

/// Appends numbers of pairs, with a blank before each.
fn put_pairs(out: &mut Vec<u8>, pairs: &[u32]) -> Result<(), OutOfMemory>
    ensures { OnOk result (out.new.items
        ≡ out.old.items ++ spaced (items_of (map number_item pairs.now))) }
{
    for pair in pairs {
        put(out, b" ")?;
        put_number(out, u64::from(*pair))?;
    }
    Ok(())
}
