//! What the sides of a peak reach in few steps.
ghost use Rattle.std.specs.Prelude.{◌≡◌, ◌<◌, All, Some, length, slice_get, IfOk, OnOk};
ghost use Rattle.term_pool.specs.Pooled.{Extends, tree_at};
ghost use Rattle.term_pool.specs.ListedIds.{listed_at};
ghost use Rattle.term_pool.specs.Known.{IsKnown};
ghost use Rattle.join_find.specs.ReachedSides.{IsNarrowAt};
ghost use Rattle.conf_find.specs.ForkRows.{IsShortReach};

use rewrite_core::PathStep;
use std::alloc::Global;
use term_pool::{Known, Pool, RulesByRoot, paths_keep_narrow};
use trs_core::OutOfMemory;

const MOST_STEPS: u32 = 8;

const MOST_TERMS: u32 = 32;

const MOST_NODES: u64 = 4_096;

/// The terms that the term of an id reaches, in up to 8 steps, up to 32 of up to 4,096 nodes.
/// What is found out of redexes is added to what is known, for later calls.
pub(crate) fn reach(
    alloc: Global,
    pool: &mut Pool,
    by_root: &RulesByRoot,
    id: u32,
    known: &mut Known,
) -> Result<Vec<(u32, Vec<PathStep>)>, OutOfMemory>
    requires narrow { IsNarrowAt pool.old id }
    requires known { IsKnown by_root.now.rules pool.old known.old }
    ensures list { IfOk result (λ found.
        IsShortReach by_root.now.rules (tree_at pool.old id) (listed_at pool.new found.items)) }
    ensures there { IfOk result (λ found. All (λ e. e.0 < length pool.new) found.items) }
    ensures narrow { IfOk result (λ found. All (λ e. IsNarrowAt pool.new e.0) found.items) }
    ensures known { OnOk result (IsKnown by_root.now.rules pool.new known.new) }
    ensures kept { Extends pool.old pool.new }
{
    paths_keep_narrow(by_root.trs());
    pool.reach_knowing(
        alloc, by_root, id, MOST_STEPS, MOST_TERMS, MOST_NODES, known,
    )
}

/// An entry of a list, by its number.
pub(crate) fn entry(entries: &[(u32, Vec<PathStep>)], i: usize) -> &(u32, Vec<PathStep>)
    requires { i < length entries.now }
    ensures { slice_get entries.now i ≡ Some result.now }
{
    &entries[i]
}
