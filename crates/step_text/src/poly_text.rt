ghost use Rattle.std.specs.Prelude.{◌≡◌, ◌++◌, Ok, OnOk, IfOk};
ghost use Rattle.sexp_core.specs.Items.{views};
ghost use Rattle.sexp_core.specs.Printed.{text_of};
ghost use Rattle.cert_step.specs.ProofStep.{step_of};
ghost use Rattle.text_reading.specs.Reading.{◌<*>◌};
ghost use Rattle.text_reading.specs.Seen.{seen};
ghost use Rattle.pair_text.specs.LinearEntries.{linear_entries};
ghost use Rattle.step_text.specs.PolyText.{poly_step, poly_item};

use cert_step::{AnyOrder, LinTable, Step};
use names_text::NamedTrs;
use pair_text::{put_linear_entries, read_linear_table};
use sexp_core::Sexp;
use std::alloc::Global;
use text_reading::{Read, put};
use trs_core::OutOfMemory;

/// A step by a linear interpretation, `(poly pe ..)`, by the members behind its word.
pub fn read_poly(
    alloc: Global,
    system: &NamedTrs,
    members: &[Sexp],
) -> Result<Read<Step>, OutOfMemory>
    ensures { IfOk result (λ r.
        seen step_of r ≡ Ok poly_step <*> linear_entries system.now (views members.now)) }
{
    match read_linear_table(alloc, system, members)? {
        Ok(table) => Ok(Ok(Step::Order(AnyOrder::Poly(table)))),
        Err(at) => Ok(Err(at)),
    }
}

/// Appends the text of a step by a linear interpretation.
pub fn put_poly(out: &mut Vec<u8>, system: &NamedTrs, table: &LinTable) -> Result<(), OutOfMemory>
    ensures { OnOk result (out.new.items
        ≡ out.old.items ++ text_of (poly_item system.now table.now)) }
{
    put(out, b"(poly")?;
    put_linear_entries(out, system, table.entries())?;
    put(out, b")")?;
    Ok(())
}
