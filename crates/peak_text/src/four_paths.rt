ghost use Rattle.std.specs.Prelude.{◌≡◌, ◌++◌, ◌∷◌, Ok, map, OnOk, IfOk};
ghost use Rattle.std.specs.List.{AllByRecursion};
ghost use Rattle.sexp_core.specs.Items.{view, views, items_of};
ghost use Rattle.sexp_core.specs.Printed.{text_of, spaced};
ghost use Rattle.text_reading.specs.Reading.{◌<*>◌};
ghost use Rattle.text_reading.specs.Printed.{ending};
ghost use Rattle.text_reading.specs.Seen.{seen};
ghost use Rattle.path_text.specs.Sharing.{behind_paths};
ghost use Rattle.path_text.specs.Paths.{in_turn, paths_in};
ghost use Rattle.path_text.specs.Ranges.{IsPlacedInRange};
ghost use Rattle.peak_text.specs.FourPaths.{four_paths, paths_behind_pair, four, paths_of_four, second_half, four_item};
ghost use Rattle.peak_text.specs.Ranges.{AreFourInRange};

use closed_pairs::Four;
use path_text::{PathNames, Shared, put_path, read_path};
use rewrite_core::PathStep;
use sexp_core::Sexp;
use std::alloc::Global;
use text_reading::{Read, both, keyword, place, put, refuse_more};
use trs_core::OutOfMemory;

/// Strong joins of peaks, each `(pair path path path path)`.
pub fn read_fours(
    alloc: Global,
    sharing: &mut Option<Shared>,
    items: &[Sexp],
) -> Result<Read<Vec<Four>>, OutOfMemory>
    ensures read { IfOk result (λ r. seen (λ v. v.items) r
        ≡ in_turn four paths_of_four sharing.old (views items.now)) }
    ensures left { IfOk result (λ r. IfOk r (λ v.
        sharing.new ≡ behind_paths sharing.old (paths_in paths_of_four v.items))) }
{
    let mut fours = Vec::new(alloc);
    for item in items {
        match read_four(alloc, sharing, item)? {
            Ok(four) => fours.push(four)?,
            Err(at) => return Ok(Err(at)),
        }
    }
    Ok(Ok(fours))
}

fn read_four(
    alloc: Global,
    sharing: &mut Option<Shared>,
    item: &Sexp,
) -> Result<Read<Four>, OutOfMemory>
    ensures read { IfOk result (λ r. r ≡ four sharing.old (view item.now)) }
    ensures left { IfOk result (λ r. IfOk r (λ f.
        sharing.new ≡ behind_paths sharing.old (paths_of_four f))) }
{
    let Sexp::List(at, members) = item else {
        return Ok(Err(place(item)));
    };
    let Some((head, paths)) = members.split_first() else {
        return Ok(Err(*at));
    };
    read_four_paths(alloc, sharing, *at, keyword(b"pair", head), paths)
}

/// Four paths in a list at a place, behind what was read of its head.
fn read_four_paths(
    alloc: Global,
    sharing: &mut Option<Shared>,
    at: u32,
    head: Read<()>,
    paths: &[Sexp],
) -> Result<Read<Four>, OutOfMemory>
    ensures read { IfOk result (λ r. r
        ≡ paths_behind_pair sharing.old at (Ok four_paths <*> head) (views paths.now)) }
    ensures left { IfOk result (λ r. IfOk r (λ f.
        sharing.new ≡ behind_paths sharing.old (paths_of_four f))) }
{
    let [left_u, right_u, right_v, left_v, more @ ..] = paths else {
        return Ok(Err(at));
    };
    let left_u = read_path(alloc, sharing, left_u)?;
    let right_u = read_path(alloc, sharing, right_u)?;
    let right_v = read_path(alloc, sharing, right_v)?;
    let left_v = read_path(alloc, sharing, left_v)?;
    let first_half = both(both(head, left_u), right_u);
    Ok(four_of(refuse_more(both(both(first_half, right_v), left_v), more)))
}

fn four_of(
    parts: Read<
        (
            ((((), Vec<PathStep>), Vec<PathStep>), Vec<PathStep>),
            Vec<PathStep>,
        ),
    >,
) -> Read<Four>
    ensures { result ≡ seen (λ p.
        four_paths p.0.0.0.0 p.0.0.0.1.items p.0.0.1.items p.0.1.items p.1.items) parts }
{
    match parts {
        Ok((((((), left_u), right_u), right_v), left_v)) => Ok(Four {
            left_u,
            right_u,
            right_v,
            left_v,
        }),
        Err(at) => Err(at),
    }
}

/// Appends the texts of strong joins, with a blank before each.
pub fn put_fours(
    out: &mut Vec<u8>,
    names: &PathNames<'_>,
    fours: &[Four],
) -> Result<(), OutOfMemory>
    ensures text { OnOk result (out.new.items
        ≡ out.old.items ++ spaced (items_of (map (four_item names.now) fours.now))) }
    ensures range { OnOk result (AllByRecursion AreFourInRange fours.now) }
{
    for four in fours {
        put(out, b" ")?;
        put_four(out, names, four)?;
    }
    Ok(())
}

fn put_four(out: &mut Vec<u8>, names: &PathNames<'_>, four: &Four) -> Result<(), OutOfMemory>
    ensures text { OnOk result (out.new.items
        ≡ out.old.items ++ text_of (four_item names.now four.now)) }
    ensures range { OnOk result (AreFourInRange four.now) }
{
    put(out, b"(pair ")?;
    put_path(out, names, &four.left_u)?;
    put(out, b" ")?;
    put_path(out, names, &four.right_u)?;
    put_second_half(out, names, four)
}

/// What stands behind the paths to the first term.
fn put_second_half(out: &mut Vec<u8>, names: &PathNames<'_>, four: &Four) -> Result<(), OutOfMemory>
    ensures text { OnOk result (out.new.items
        ≡ out.old.items ++ ending (second_half names.now four.now)) }
    ensures right { OnOk result (AllByRecursion IsPlacedInRange four.now.right_v) }
    ensures left { OnOk result (AllByRecursion IsPlacedInRange four.now.left_v) }
{
    put(out, b" ")?;
    put_path(out, names, &four.right_v)?;
    put(out, b" ")?;
    put_path(out, names, &four.left_v)?;
    put(out, b")")?;
    Ok(())
}
