ghost use Rattle.std.specs.Prelude.{◌≡◌, ◌++◌, Ok, OnOk, IfOk};
ghost use Rattle.sexp_core.specs.Items.{views};
ghost use Rattle.sexp_core.specs.Printed.{text_of};
ghost use Rattle.cert_step.specs.ProofStep.{step_of};
ghost use Rattle.text_reading.specs.Reading.{◌<*>◌};
ghost use Rattle.text_reading.specs.Seen.{seen};
ghost use Rattle.path_text.specs.Sharing.{behind_paths};
ghost use Rattle.path_text.specs.Paths.{in_turn};
ghost use Rattle.peak_text.specs.FourPaths.{four, paths_of_four};
ghost use Rattle.step_text.specs.Steps.{paths_of_method};
ghost use Rattle.step_text.specs.StrongText.{strong_step, strong_item, strong_text};

use cert_step::Step;
use path_text::{PathNames, Shared};
use peak_text::{Four, put_fours, read_fours};
use sexp_core::Sexp;
use std::alloc::Global;
use text_reading::{Read, put};
use trs_core::OutOfMemory;

/// A step of strong joins, `(strong four ..)`, by the members behind its word.
pub fn read_strong(
    alloc: Global,
    sharing: &mut Option<Shared>,
    members: &[Sexp],
) -> Result<Read<Step>, OutOfMemory>
    ensures read { IfOk result (λ r. seen step_of r
        ≡ Ok strong_step <*> in_turn four paths_of_four sharing.old (views members.now)) }
    ensures left { IfOk result (λ r. IfOk r (λ s. sharing.new
        ≡ behind_paths sharing.old (paths_of_method (step_of s)))) }
{
    match read_fours(alloc, sharing, members)? {
        Ok(fours) => Ok(Ok(Step::Strong(fours))),
        Err(at) => Ok(Err(at)),
    }
}

/// Appends the text of a step of strong joins.
pub fn put_strong(
    out: &mut Vec<u8>,
    names: &PathNames<'_>,
    fours: &[Four],
) -> Result<(), OutOfMemory>
    ensures text { OnOk result (out.new.items
        ≡ out.old.items ++ text_of (strong_item names.now fours.now)) }
    ensures range { OnOk result (strong_text fours.now).is_in_range }
{
    put(out, b"(strong")?;
    put_fours(out, names, fours)?;
    put(out, b")")?;
    Ok(())
}
