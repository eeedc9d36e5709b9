ghost use Rattle.std.specs.Prelude.{◌≡◌, ◌++◌, Ok, OnOk, IfOk};
ghost use Rattle.sexp_core.specs.Items.{views};
ghost use Rattle.sexp_core.specs.Printed.{text_of};
ghost use Rattle.cert_step.specs.ProofStep.{step_of};
ghost use Rattle.text_reading.specs.Reading.{◌<*>◌};
ghost use Rattle.text_reading.specs.Seen.{seen};
ghost use Rattle.pair_text.specs.KnuthEntries.{kbo_entries};
ghost use Rattle.step_text.specs.KboText.{kbo_step, kbo_item};

use cert_step::{AnyOrder, Kbo, Step};
use names_text::NamedTrs;
use pair_text::{put_kbo_entries, read_knuth_order};
use sexp_core::Sexp;
use std::alloc::Global;
use text_reading::{Read, put};
use trs_core::OutOfMemory;

/// A step by a Knuth-Bendix order, `(kbo ke ..)`, by the members behind its word.
pub fn read_kbo(
    alloc: Global,
    system: &NamedTrs,
    members: &[Sexp],
) -> Result<Read<Step>, OutOfMemory>
    ensures { IfOk result (λ r.
        seen step_of r ≡ Ok kbo_step <*> kbo_entries system.now (views members.now)) }
{
    match read_knuth_order(alloc, system, members)? {
        Ok(order) => Ok(Ok(Step::Order(AnyOrder::Kbo(order)))),
        Err(at) => Ok(Err(at)),
    }
}

/// Appends the text of a step by a Knuth-Bendix order.
pub fn put_kbo(out: &mut Vec<u8>, system: &NamedTrs, order: &Kbo) -> Result<(), OutOfMemory>
    ensures { OnOk result (out.new.items
        ≡ out.old.items ++ text_of (kbo_item system.now order.now.entries.items)) }
{
    put(out, b"(kbo")?;
    put_kbo_entries(out, system, order.entries())?;
    put(out, b")")?;
    Ok(())
}
