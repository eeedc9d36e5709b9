ghost use Rattle.std.specs.Prelude.{◌≡◌, ◌++◌, Ok, OnOk, IfOk};
ghost use Rattle.sexp_core.specs.Items.{views};
ghost use Rattle.sexp_core.specs.Printed.{text_of};
ghost use Rattle.cert_step.specs.ProofStep.{step_of};
ghost use Rattle.text_reading.specs.Reading.{◌<*>◌};
ghost use Rattle.text_reading.specs.Seen.{seen};
ghost use Rattle.pair_text.specs.Projections.{projections};
ghost use Rattle.step_text.specs.SubtermText.{subterm_step, subterm_item, subterm_text};

use cert_step::Step;
use names_text::NamedTrs;
use pair_text::{put_projections, read_projections};
use sexp_core::Sexp;
use std::alloc::Global;
use text_reading::{Read, put};
use trs_core::OutOfMemory;

/// A step by the subterm criterion, `(subterm entry ..)`, by the members behind its word.
pub fn read_subterm(
    alloc: Global,
    system: &NamedTrs,
    members: &[Sexp],
) -> Result<Read<Step>, OutOfMemory>
    ensures { IfOk result (λ r.
        seen step_of r ≡ Ok subterm_step <*> projections system.now (views members.now)) }
{
    match read_projections(alloc, system, members)? {
        Ok(projection) => Ok(Ok(Step::Subterm(projection))),
        Err(at) => Ok(Err(at)),
    }
}

/// Appends the text of a step by the subterm criterion.
pub fn put_subterm(
    out: &mut Vec<u8>,
    system: &NamedTrs,
    projection: &[(u32, u8)],
) -> Result<(), OutOfMemory>
    ensures text { OnOk result (out.new.items
        ≡ out.old.items ++ text_of (subterm_item system.now projection.now)) }
    ensures range { OnOk result (subterm_text projection.now).is_in_range }
{
    put(out, b"(subterm")?;
    put_projections(out, system, projection)?;
    put(out, b")")?;
    Ok(())
}
