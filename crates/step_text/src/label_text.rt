ghost use Rattle.std.specs.Prelude.{◌≡◌, ◌++◌, OnOk, IfOk};
ghost use Rattle.sexp_core.specs.Items.{views};
ghost use Rattle.sexp_core.specs.Printed.{text_of};
ghost use Rattle.cert_step.specs.ProofStep.{step_of, label};
ghost use Rattle.text_reading.specs.Seen.{seen};
ghost use Rattle.path_text.specs.Sharing.{behind_paths};
ghost use Rattle.step_text.specs.Steps.{paths_of_method};
ghost use Rattle.step_text.specs.LabelText.{label_form, label_item, label_text};

use cert_step::Step;
use path_text::{PathNames, Shared};
use peak_text::{put_pairs, put_ranks, read_pairs, read_ranks};
use rewrite_core::Join;
use sexp_core::Sexp;
use std::alloc::Global;
use text_reading::{Read, both, put};
use trs_core::OutOfMemory;

/// A step of ranks and joins, `(label (ranks number ..) pair ..)`, by the members behind its word
/// in a list at a place.
pub fn read_label(
    alloc: Global,
    sharing: &mut Option<Shared>,
    at: u32,
    members: &[Sexp],
) -> Result<Read<Step>, OutOfMemory>
    ensures read { IfOk result (λ r.
        seen step_of r ≡ label_form sharing.old at (views members.now)) }
    ensures left { IfOk result (λ r. IfOk r (λ s. sharing.new
        ≡ behind_paths sharing.old (paths_of_method (step_of s)))) }
{
    let Some((ranks, pairs)) = members.split_first() else {
        return Ok(Err(at));
    };
    let ranks = read_ranks(alloc, ranks)?;
    let joins = read_pairs(alloc, sharing, pairs)?;
    Ok(label_step(both(ranks, joins)))
}

fn label_step(parts: Read<(Vec<u64>, Vec<Join>)>) -> Read<Step>
    ensures { seen step_of result ≡ seen (λ p. label p.0.items p.1.items) parts }
{
    match parts {
        Ok((ranks, joins)) => Ok(Step::Label { ranks, joins }),
        Err(at) => Err(at),
    }
}

/// Appends the text of a step of ranks and joins.
pub fn put_label(
    out: &mut Vec<u8>,
    names: &PathNames<'_>,
    ranks: &[u64],
    joins: &[Join],
) -> Result<(), OutOfMemory>
    ensures text { OnOk result (out.new.items
        ≡ out.old.items ++ text_of (label_item names.now ranks.now joins.now)) }
    ensures range { OnOk result (label_text ranks.now joins.now).is_in_range }
{
    put(out, b"(label ")?;
    put_ranks(out, ranks)?;
    put_pairs(out, names, joins)?;
    put(out, b")")?;
    Ok(())
}
