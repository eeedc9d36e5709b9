ghost use Rattle.std.specs.Prelude.{◌≡◌, ◌++◌, Ok, OnOk, IfOk};
ghost use Rattle.sexp_core.specs.Items.{views};
ghost use Rattle.sexp_core.specs.Printed.{text_of};
ghost use Rattle.cert_step.specs.ProofStep.{step_of};
ghost use Rattle.text_reading.specs.Reading.{◌<*>◌};
ghost use Rattle.text_reading.specs.Seen.{seen};
ghost use Rattle.pair_text.specs.LinearEntries.{linear_entries};
ghost use Rattle.step_text.specs.UsableText.{usable_step, usable_item};

use cert_step::{LinTable, Step};
use names_text::NamedTrs;
use pair_text::{put_linear_entries, read_linear_table};
use sexp_core::Sexp;
use std::alloc::Global;
use text_reading::{Read, put};
use trs_core::OutOfMemory;

/// A step by a linear interpretation and the usable rules, `(usable-poly pe ..)`, by the members behind its word.
pub fn read_usable(
    alloc: Global,
    system: &NamedTrs,
    members: &[Sexp],
) -> Result<Read<Step>, OutOfMemory>
    ensures { IfOk result (λ r.
        seen step_of r ≡ Ok usable_step <*> linear_entries system.now (views members.now)) }
{
    match read_linear_table(alloc, system, members)? {
        Ok(table) => Ok(Ok(Step::UsablePoly(table))),
        Err(at) => Ok(Err(at)),
    }
}

/// Appends the text of a step by a linear interpretation and the usable rules.
pub fn put_usable(out: &mut Vec<u8>, system: &NamedTrs, table: &LinTable) -> Result<(), OutOfMemory>
    ensures { OnOk result (out.new.items
        ≡ out.old.items ++ text_of (usable_item system.now table.now)) }
{
    put(out, b"(usable-poly")?;
    put_linear_entries(out, system, table.entries())?;
    put(out, b")")?;
    Ok(())
}
