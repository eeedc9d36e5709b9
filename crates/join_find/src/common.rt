//! Ids that two lists have in common.
ghost use Rattle.std.specs.Prelude.{IfOk, MatchOption};
ghost use Rattle.trs_defs.specs.Member.{In};
ghost use Rattle.term_pool.specs.ListedIds.{ids_of};
ghost use Rattle.join_find.specs.CommonIds.{IsFirstCommonId, HasNoCommonId, IsPathOf};

use closed_pairs::Join;
use rewrite_core::{PathStep, copy_path};
use std::alloc::Global;
use trs_core::OutOfMemory;

/// The paths to the first id of the left list that the right list has.
pub(crate) fn first_common(
    alloc: Global,
    lefts: &[(u32, Vec<PathStep>)],
    rights: &[(u32, Vec<PathStep>)],
) -> Result<Option<Join>, OutOfMemory>
    ensures { IfOk result (λ found. MatchOption found
        (HasNoCommonId lefts.now rights.now) (IsFirstCommonId lefts.now rights.now)) }
{
    for left in lefts {
        match path_of(rights, left.0) {
            None => {}
            Some(right) => {
                return Ok(Some(Join {
                    left: copy_path(alloc, &left.1)?,
                    right: copy_path(alloc, right)?,
                }));
            }
        }
    }
    Ok(None)
}

/// The path to an id, if the list has it.
fn path_of(entries: &[(u32, Vec<PathStep>)], id: u32) -> Option<&[PathStep]>
    ensures { MatchOption result (In id (ids_of entries.now) → ⊥)
        (λ path. IsPathOf entries.now id path.now) }
{
    for entry in entries {
        if entry.0 == id {
            return Some(entry.1.as_slice());
        }
    }
    None
}
