ghost use Rattle.std.specs.Prelude.{◌≡◌, ◌++◌, Ok, OnOk, IfOk};
ghost use Rattle.sexp_core.specs.Items.{views};
ghost use Rattle.sexp_core.specs.Printed.{text_of};
ghost use Rattle.cert_step.specs.ProofStep.{step_of};
ghost use Rattle.text_reading.specs.Reading.{◌<*>◌};
ghost use Rattle.text_reading.specs.Seen.{seen};
ghost use Rattle.pair_text.specs.PathEntries.{path_entries};
ghost use Rattle.step_text.specs.LpoText.{lpo_step, lpo_item, lpo_text};

use cert_step::{AnyOrder, Lpo, Step};
use names_text::NamedTrs;
use pair_text::{put_path_entries, read_path_order};
use sexp_core::Sexp;
use std::alloc::Global;
use text_reading::{Read, put};
use trs_core::OutOfMemory;

/// A step by a path order, `(lpo le ..)`, by the members behind its word.
pub fn read_lpo(
    alloc: Global,
    system: &NamedTrs,
    members: &[Sexp],
) -> Result<Read<Step>, OutOfMemory>
    ensures { IfOk result (λ r.
        seen step_of r ≡ Ok lpo_step <*> path_entries system.now (views members.now)) }
{
    match read_path_order(alloc, system, members)? {
        Ok(order) => Ok(Ok(Step::Order(AnyOrder::Lpo(order)))),
        Err(at) => Ok(Err(at)),
    }
}

/// Appends the text of a step by a path order.
pub fn put_lpo(out: &mut Vec<u8>, system: &NamedTrs, order: &Lpo) -> Result<(), OutOfMemory>
    ensures text { OnOk result (out.new.items
        ≡ out.old.items ++ text_of (lpo_item system.now order.now)) }
    ensures range { OnOk result (lpo_text order.now).is_in_range }
{
    put(out, b"(lpo")?;
    put_path_entries(out, system, order.entries())?;
    put(out, b")")?;
    Ok(())
}
