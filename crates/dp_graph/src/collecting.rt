ghost use Rattle.std.specs.Prelude.{ℕ, ◌≡◌, ◌<◌, Some, false, IfOk, OnOk, length, slice_get};
ghost use Rattle.trs_defs.specs.Member.{In};
ghost use Rattle.dp_graph.specs.GraphConditions.{lists_of};
ghost use Rattle.dp_graph.specs.Rows.{Follows};
ghost use Rattle.dp_graph.specs.FoundPlaces.{Finds, AreCollected};

use std::alloc::Global;
use trs_core::OutOfMemory;

/// The places to which a path leads from a place through places whose flags are not set. Their
/// flags are set, so that the row of each place is walked once in all.
pub(crate) fn collect(
    alloc: Global,
    rows: &[Vec<u32>],
    start: usize,
    flags: &mut Vec<bool>,
) -> Result<Vec<usize>, OutOfMemory>
    requires unset { slice_get flags.old.items start ≡ Some false }
    requires places { length flags.old.items ≡ length rows.now }
    ensures { IfOk result (λ found. AreCollected (lists_of rows.now) flags.old.items
        flags.new.items start found.items) }
{
    let mut found = Vec::new(alloc);
    mark(start, flags, &mut found)?;
    let mut i = 0;
    while i < found.len() {
        walk(rows, found[i], flags, &mut found)?;
        i += 1;
    }
    Ok(found)
}

/// Adds the places of the row of a place.
fn walk(
    rows: &[Vec<u32>],
    k: usize,
    flags: &mut Vec<bool>,
    found: &mut Vec<usize>,
) -> Result<(), OutOfMemory>
    requires { k < length rows.now }
    ensures { OnOk result (Finds (λ j. Follows (lists_of rows.now) k j)
        flags.old.items flags.new.items found.old.items found.new.items) }
{
    visit(&rows[k], flags, found)?;
    Ok(())
}

/// Adds the places of a row.
fn visit(row: &[u32], flags: &mut Vec<bool>, found: &mut Vec<usize>) -> Result<(), OutOfMemory>
    ensures { OnOk result (Finds (λ j. In j row.now)
        flags.old.items flags.new.items found.old.items found.new.items) }
{
    for j in row {
        mark(*j as usize, flags, found)?;
    }
    Ok(())
}

/// Adds a place, if it is one, unless its flag is set.
fn mark(k: usize, flags: &mut Vec<bool>, found: &mut Vec<usize>) -> Result<(), OutOfMemory>
    ensures { OnOk result (Finds (λ j. j ≡ k)
        flags.old.items flags.new.items found.old.items found.new.items) }
{
    if k < flags.len() && !flags[k] {
        found.push(k)?;
        flags[k] = true;
    }
    Ok(())
}
