ghost use Rattle.std.specs.Prelude.{◌≡◌, ◌++◌, Ok, map, OnOk, IfOk};
ghost use Rattle.sexp_core.specs.Items.{views};
ghost use Rattle.sexp_core.specs.Printed.{text_of};
ghost use Rattle.cert_step.specs.ProofStep.{step_of};
ghost use Rattle.text_reading.specs.Reading.{◌<*>◌, many};
ghost use Rattle.text_reading.specs.Seen.{seen};
ghost use Rattle.peak_text.specs.ParallelStep.{par};
ghost use Rattle.step_text.specs.ParallelText.{parallel_step, parallel_item, parallel_text};

use cert_step::Step;
use peak_text::{put_parallel_steps, read_parallel_steps};
use rewrite_core::PathStep;
use sexp_core::Sexp;
use std::alloc::Global;
use text_reading::{Read, put};
use trs_core::OutOfMemory;

/// A step of parallel steps, `(parallel par ..)`, by the members behind its word.
pub fn read_parallel(alloc: Global, members: &[Sexp]) -> Result<Read<Step>, OutOfMemory>
    ensures { IfOk result (λ r.
        seen step_of r ≡ Ok parallel_step <*> many par (views members.now)) }
{
    match read_parallel_steps(alloc, members)? {
        Ok(steps) => Ok(Ok(Step::Parallel(steps))),
        Err(at) => Ok(Err(at)),
    }
}

/// Appends the text of a step of parallel steps.
pub fn put_parallel(out: &mut Vec<u8>, steps: &[Vec<PathStep>]) -> Result<(), OutOfMemory>
    ensures text { OnOk result (out.new.items
        ≡ out.old.items ++ text_of (parallel_item (map (λ v. v.items) steps.now))) }
    ensures range { OnOk result (parallel_text (map (λ v. v.items) steps.now)).is_in_range }
{
    put(out, b"(parallel")?;
    put_parallel_steps(out, steps)?;
    put(out, b")")?;
    Ok(())
}
