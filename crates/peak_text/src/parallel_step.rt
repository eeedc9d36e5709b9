ghost use Rattle.std.specs.Prelude.{◌≡◌, ◌++◌, ◌∷◌, map, OnOk, IfOk};
ghost use Rattle.std.specs.List.{AllByRecursion};
ghost use Rattle.sexp_core.specs.Items.{view, views, items_of};
ghost use Rattle.sexp_core.specs.Printed.{text_of, spaced};
ghost use Rattle.text_reading.specs.Reading.{many};
ghost use Rattle.text_reading.specs.Seen.{seen};
ghost use Rattle.path_text.specs.Ranges.{IsPlacedInRange};
ghost use Rattle.peak_text.specs.ParallelStep.{par, par_item};

use path_text::{put_placed_rules, read_placed_rules};
use rewrite_core::PathStep;
use sexp_core::Sexp;
use std::alloc::Global;
use text_reading::{Read, both, keyword, place, push, put};
use trs_core::OutOfMemory;

/// Steps at parallel positions, each `(par at ..)`.
pub fn read_parallel_steps(
    alloc: Global,
    items: &[Sexp],
) -> Result<Read<Vec<Vec<PathStep>>>, OutOfMemory>
    ensures { IfOk result (λ r.
        seen (λ v. map (λ w. w.items) v.items) r ≡ many par (views items.now)) }
{
    let mut steps = Ok(Vec::new(alloc));
    for item in items {
        push(&mut steps, read_parallel_step(alloc, item)?)?;
    }
    Ok(steps)
}

fn read_parallel_step(alloc: Global, item: &Sexp) -> Result<Read<Vec<PathStep>>, OutOfMemory>
    ensures { IfOk result (λ r. seen (λ v. v.items) r ≡ par (view item.now)) }
{
    let Sexp::List(at, members) = item else {
        return Ok(Err(place(item)));
    };
    let Some((head, steps)) = members.split_first() else {
        return Ok(Err(*at));
    };
    let head = keyword(b"par", head);
    let steps = read_placed_rules(alloc, steps)?;
    match both(head, steps) {
        Ok(((), steps)) => Ok(Ok(steps)),
        Err(at) => Ok(Err(at)),
    }
}

/// Appends the texts of steps at parallel positions, with a blank before each.
pub fn put_parallel_steps(out: &mut Vec<u8>, steps: &[Vec<PathStep>]) -> Result<(), OutOfMemory>
    ensures text { OnOk result (out.new.items
        ≡ out.old.items ++ spaced (items_of (map par_item (map (λ v. v.items) steps.now)))) }
    ensures range { OnOk result
        (AllByRecursion (AllByRecursion IsPlacedInRange) (map (λ v. v.items) steps.now)) }
{
    for step in steps {
        put_parallel_step(out, step)?;
    }
    Ok(())
}

/// Appends the text of steps at parallel positions, behind a blank. Most often there are none.
fn put_parallel_step(out: &mut Vec<u8>, step: &[PathStep]) -> Result<(), OutOfMemory>
    ensures text { OnOk result (out.new.items
        ≡ out.old.items ++ 32 ∷ text_of (par_item step.now)) }
    ensures range { OnOk result (AllByRecursion IsPlacedInRange step.now) }
{
    if step.is_empty() {
        put(out, b" (par)")?;
        return Ok(());
    }
    put(out, b" (par")?;
    put_placed_rules(out, step)?;
    out.push(b')')?;
    Ok(())
}
