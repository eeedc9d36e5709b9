ghost use Rattle.std.specs.Prelude.{◌≡◌, ◌++◌, map, OnOk, IfOk};
ghost use Rattle.std.specs.List.{AllByRecursion};
ghost use Rattle.sexp_core.specs.Items.{view, views, items_of};
ghost use Rattle.sexp_core.specs.Printed.{text_of, spaced};
ghost use Rattle.text_reading.specs.Seen.{seen};
ghost use Rattle.path_text.specs.Sharing.{behind_paths};
ghost use Rattle.path_text.specs.Paths.{in_turn, paths_in};
ghost use Rattle.peak_text.specs.TwoPaths.{two_paths, two_behind, paths_of_two, two_item, join, join_item, pair, pair_item};
ghost use Rattle.peak_text.specs.Ranges.{AreTwoInRange};

use path_text::{PathNames, Shared, put_path, read_path};
use rewrite_core::{Join, PathStep};
use sexp_core::Sexp;
use std::alloc::Global;
use text_reading::{Read, both, keyword, place, put, refuse_more};
use trs_core::OutOfMemory;

/// Joins of peaks, each `(join path path)`.
pub fn read_joins(
    alloc: Global,
    sharing: &mut Option<Shared>,
    items: &[Sexp],
) -> Result<Read<Vec<Join>>, OutOfMemory>
    ensures read { IfOk result (λ r. seen (λ v. v.items) r
        ≡ in_turn join paths_of_two sharing.old (views items.now)) }
    ensures left { IfOk result (λ r. IfOk r (λ v.
        sharing.new ≡ behind_paths sharing.old (paths_in paths_of_two v.items))) }
{
    read_each(alloc, sharing, b"join", items)
}

/// Joins of peaks where rules have ranks, each `(pair path path)`.
pub fn read_pairs(
    alloc: Global,
    sharing: &mut Option<Shared>,
    items: &[Sexp],
) -> Result<Read<Vec<Join>>, OutOfMemory>
    ensures read { IfOk result (λ r. seen (λ v. v.items) r
        ≡ in_turn pair paths_of_two sharing.old (views items.now)) }
    ensures left { IfOk result (λ r. IfOk r (λ v.
        sharing.new ≡ behind_paths sharing.old (paths_in paths_of_two v.items))) }
{
    read_each(alloc, sharing, b"pair", items)
}

fn read_each(
    alloc: Global,
    sharing: &mut Option<Shared>,
    word: &[u8],
    items: &[Sexp],
) -> Result<Read<Vec<Join>>, OutOfMemory>
    ensures read { IfOk result (λ r. seen (λ v. v.items) r
        ≡ in_turn (two_behind word.now) paths_of_two sharing.old (views items.now)) }
    ensures left { IfOk result (λ r. IfOk r (λ v.
        sharing.new ≡ behind_paths sharing.old (paths_in paths_of_two v.items))) }
{
    let mut joins = Vec::with_capacity(alloc, items.len())?;
    for item in items {
        match read_two(alloc, sharing, word, item)? {
            Ok(join) => joins.push(join)?,
            Err(at) => return Ok(Err(at)),
        }
    }
    Ok(Ok(joins))
}

/// Two paths behind a word.
#[inline(always)]
fn read_two(
    alloc: Global,
    sharing: &mut Option<Shared>,
    word: &[u8],
    item: &Sexp,
) -> Result<Read<Join>, OutOfMemory>
    ensures read { IfOk result (λ r. r ≡ two_behind word.now sharing.old (view item.now)) }
    ensures left { IfOk result (λ r. IfOk r (λ j.
        sharing.new ≡ behind_paths sharing.old (paths_of_two j))) }
{
    let Sexp::List(at, members) = item else {
        return Ok(Err(place(item)));
    };
    let [head, left, right, more @ ..] = *members else {
        return Ok(Err(*at));
    };
    let head = keyword(word, head);
    let left = read_path(alloc, sharing, left)?;
    let right = read_path(alloc, sharing, right)?;
    Ok(join_of(refuse_more(both(both(head, left), right), more)))
}

fn join_of(parts: Read<(((), Vec<PathStep>), Vec<PathStep>)>) -> Read<Join>
    ensures { result ≡ seen (λ p. two_paths p.0.0 p.0.1.items p.1.items) parts }
{
    match parts {
        Ok((((), left), right)) => Ok(Join { left, right }),
        Err(at) => Err(at),
    }
}

/// Appends the texts of joins, with a blank before each.
pub fn put_joins(
    out: &mut Vec<u8>,
    names: &PathNames<'_>,
    joins: &[Join],
) -> Result<(), OutOfMemory>
    ensures text { OnOk result (out.new.items
        ≡ out.old.items ++ spaced (items_of (map (join_item names.now) joins.now))) }
    ensures range { OnOk result (AllByRecursion AreTwoInRange joins.now) }
{
    put_each(out, names, b"join", joins)
}

/// Appends the texts of joins where rules have ranks, with a blank before each.
pub fn put_pairs(
    out: &mut Vec<u8>,
    names: &PathNames<'_>,
    pairs: &[Join],
) -> Result<(), OutOfMemory>
    ensures text { OnOk result (out.new.items
        ≡ out.old.items ++ spaced (items_of (map (pair_item names.now) pairs.now))) }
    ensures range { OnOk result (AllByRecursion AreTwoInRange pairs.now) }
{
    put_each(out, names, b"pair", pairs)
}

fn put_each(
    out: &mut Vec<u8>,
    names: &PathNames<'_>,
    word: &[u8],
    joins: &[Join],
) -> Result<(), OutOfMemory>
    ensures text { OnOk result (out.new.items
        ≡ out.old.items ++ spaced (items_of (map (two_item word.now names.now) joins.now))) }
    ensures range { OnOk result (AllByRecursion AreTwoInRange joins.now) }
{
    for join in joins {
        put(out, b" ")?;
        put_two(out, names, word, join)?;
    }
    Ok(())
}

fn put_two(
    out: &mut Vec<u8>,
    names: &PathNames<'_>,
    word: &[u8],
    join: &Join,
) -> Result<(), OutOfMemory>
    ensures text { OnOk result (out.new.items
        ≡ out.old.items ++ text_of (two_item word.now names.now join.now)) }
    ensures range { OnOk result (AreTwoInRange join.now) }
{
    put(out, b"(")?;
    put(out, word)?;
    put(out, b" ")?;
    put_path(out, names, &join.left)?;
    put(out, b" ")?;
    put_path(out, names, &join.right)?;
    put(out, b")")?;
    Ok(())
}
