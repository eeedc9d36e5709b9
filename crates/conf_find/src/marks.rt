//! What is found out of the terms that the sides of peaks reach, to tell which of them never meet
//! again.
ghost use Rattle.std.specs.Prelude.{◌↔◌, ℕ, All, IsTrue, OnOk};
ghost use Rattle.term_pool.specs.Pooled.{tree_at};
ghost use Rattle.join_find.specs.ReachedSides.{IsNarrowAt};
ghost use Rattle.conf_find.specs.Marks.{AreMarkedIds, Lasts};

use rewrite_core::PathStep;
use std::alloc::Global;
use term_pool::{Pool, RulesByRoot};
use trs_core::OutOfMemory;

/// Marks of the terms of a pool, by their ids, which tell of two terms that they never meet.
pub(crate) trait Marks: Drop {
    ghost use Rattle.std.specs.Prelude.{List};
    ghost use Rattle.trs_defs.specs.System.{RewriteRule};
    ghost use Rattle.trs_defs.specs.Tree.{Tree};

    /// How it is seen of two terms that they never meet.
    ghost never_meet: { List RewriteRule → Tree → Tree → Type 0 };

    /// The id has a mark.
    ghost has_mark: { Self → ℕ → Type 0 };

    /// The marks are those of terms of this pool.
    ghost of_pool: { List RewriteRule → List Tree → Self → Type 0 };

    /// No marks. It takes no memory.
    fn new(alloc: Global) -> Self
        ensures { (rules : List RewriteRule) (pool : List Tree) → of_pool rules pool result };

    /// Marks the term of an id, if it has no mark yet.
    fn mark(
        &mut self,
        alloc: Global,
        pool: &Pool,
        by_root: &RulesByRoot,
        id: u32,
    ) -> Result<(), OutOfMemory>
        requires narrow { IsNarrowAt pool.now id }
        requires marks { of_pool by_root.now.rules pool.now self.old }
        ensures marked { OnOk result (has_mark self.new id) }
        ensures still { OnOk result ((i : ℕ) → has_mark self.old i → has_mark self.new i) }
        ensures marks { OnOk result (of_pool by_root.now.rules pool.now self.new) };

    /// Whether the terms of two ids never meet, by their marks.
    fn are_parted(&self, pool: &Pool, by_root: &RulesByRoot, left: u32, right: u32) -> bool
        requires left { has_mark self.now left }
        requires right { has_mark self.now right }
        requires marks { of_pool by_root.now.rules pool.now self.now }
        ensures { IsTrue result
            ↔ never_meet by_root.now.rules (tree_at pool.now left) (tree_at pool.now right) };

    /// The bytes of all marks, by estimate.
    fn bytes(&self) -> u64;

    /// A law, with nothing to run: marks of a pool are marks of the pool once it has grown.
    fn last()
        ensures { Lasts of_pool };
}

/// Marks the terms of a list.
pub(crate) fn mark_all<M: Marks>(
    alloc: Global,
    pool: &Pool,
    by_root: &RulesByRoot,
    entries: &[(u32, Vec<PathStep>)],
    marks: &mut M,
) -> Result<(), OutOfMemory>
    requires narrow { All (λ e. IsNarrowAt pool.now e.0) entries.now }
    requires marks { M.of_pool by_root.now.rules pool.now marks.old }
    ensures marked { OnOk result (AreMarkedIds M.has_mark marks.new entries.now) }
    ensures still { OnOk result ((i : ℕ) → M.has_mark marks.old i → M.has_mark marks.new i) }
    ensures marks { OnOk result (M.of_pool by_root.now.rules pool.now marks.new) }
{
    for entry in entries {
        marks.mark(alloc, pool, by_root, entry.0)?;
    }
    Ok(())
}
