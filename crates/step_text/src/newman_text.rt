ghost use Rattle.std.specs.Prelude.{◌≡◌, ◌++◌, Ok, OnOk, IfOk};
ghost use Rattle.sexp_core.specs.Items.{views};
ghost use Rattle.sexp_core.specs.Printed.{text_of};
ghost use Rattle.cert_step.specs.ProofStep.{step_of};
ghost use Rattle.text_reading.specs.Reading.{◌<*>◌};
ghost use Rattle.text_reading.specs.Seen.{seen};
ghost use Rattle.path_text.specs.Sharing.{behind_paths};
ghost use Rattle.path_text.specs.Paths.{in_turn};
ghost use Rattle.peak_text.specs.TwoPaths.{join, paths_of_two};
ghost use Rattle.step_text.specs.Steps.{paths_of_method};
ghost use Rattle.step_text.specs.NewmanText.{newman_step, newman_item, newman_text};

use cert_step::Step;
use path_text::{PathNames, Shared};
use peak_text::{put_joins, read_joins};
use rewrite_core::Join;
use sexp_core::Sexp;
use std::alloc::Global;
use text_reading::{Read, put};
use trs_core::OutOfMemory;

/// A step of joins, `(newman join ..)`, by the members behind its word.
pub fn read_newman(
    alloc: Global,
    sharing: &mut Option<Shared>,
    members: &[Sexp],
) -> Result<Read<Step>, OutOfMemory>
    ensures read { IfOk result (λ r. seen step_of r
        ≡ Ok newman_step <*> in_turn join paths_of_two sharing.old (views members.now)) }
    ensures left { IfOk result (λ r. IfOk r (λ s. sharing.new
        ≡ behind_paths sharing.old (paths_of_method (step_of s)))) }
{
    match read_joins(alloc, sharing, members)? {
        Ok(joins) => Ok(Ok(Step::Newman(joins))),
        Err(at) => Ok(Err(at)),
    }
}

/// Appends the text of a step of joins.
pub fn put_newman(
    out: &mut Vec<u8>,
    names: &PathNames<'_>,
    joins: &[Join],
) -> Result<(), OutOfMemory>
    ensures text { OnOk result (out.new.items
        ≡ out.old.items ++ text_of (newman_item names.now joins.now)) }
    ensures range { OnOk result (newman_text joins.now).is_in_range }
{
    put(out, b"(newman")?;
    put_joins(out, names, joins)?;
    put(out, b")")?;
    Ok(())
}
