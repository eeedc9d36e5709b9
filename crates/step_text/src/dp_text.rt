ghost use Rattle.std.specs.Prelude.{◌≡◌, ◌++◌, Ok, OnOk};
ghost use Rattle.sexp_core.specs.Items.{views};
ghost use Rattle.sexp_core.specs.Printed.{text_of};
ghost use Rattle.cert_step.specs.ProofStep.{step_of, dp};
ghost use Rattle.text_reading.specs.Reading.{ended as ended_by};
ghost use Rattle.text_reading.specs.Seen.{seen};
ghost use Rattle.step_text.specs.DpText.{dp_item};

use cert_step::Step;
use sexp_core::Sexp;
use text_reading::{Read, put, refuse_more};
use trs_core::OutOfMemory;

/// The step `(dp)`, by the members behind its word.
pub fn read_dp(members: &[Sexp]) -> Read<Step>
    ensures { seen step_of result ≡ ended_by (Ok dp) (views members.now) }
{
    refuse_more(Ok(Step::Dp), members)
}

/// Appends the text of the step.
pub fn put_dp(out: &mut Vec<u8>) -> Result<(), OutOfMemory>
    ensures { OnOk result (out.new.items ≡ out.old.items ++ text_of dp_item) }
{
    put(out, b"(dp)")?;
    Ok(())
}
