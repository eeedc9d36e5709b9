//! The sides of peaks, with what they reach in few steps.
ghost use Rattle.std.specs.Prelude.{◌≡◌, ◌<◌, ℕ, List, None, Some, is_some, length, IsTrue, IfOk, OnOk};
ghost use Rattle.trs_defs.specs.Tree.{Tree};
ghost use Rattle.trs_defs.specs.System.{RewriteRule};
ghost use Rattle.term_pool.specs.Pooled.{Extends, StandsFor, tree_at};
ghost use Rattle.join_find.specs.Sides.{IsSide};
ghost use Rattle.join_find.specs.KeptLists.{list_of};
ghost use Rattle.conf_find.specs.ReachedSides.{AreReached, AreMarksOf};
ghost use Rattle.term_pool.specs.Crossing.{AreKnownIds};
ghost use Rattle.term_pool.specs.Known.{IsKnown};

use crate::marks::{Marks, mark_all};
use crate::reaching::reach;
use join_find::KeptLists;
use rewrite_core::PathStep;
use std::alloc::Global;
use term_pool::{Known, KnownIds, Pool, RulesByRoot};
use trs_core::OutOfMemory;

/// The most ids that are kept from one peak to the next.
const MOST_KEPT_IDS: u32 = 262_144;

/// The most bytes of lists and marks, by estimate, that are kept from one peak to the next.
const MOST_KEPT_BYTES: u64 = 67_108_864;

/// Sides of peaks in one pool. What a side reaches is listed once.
#[derive(Drop)]
pub(crate) struct ReachedSides {
    pool: Pool,
    /// The ids of sides, by those that they have in another pool.
    known_ids: KnownIds,
    /// What was found out about ids of the pool.
    known: Known,
    reached: KeptLists,
}

impl ReachedSides {
    /// No sides. It takes no memory.
    pub(crate) fn new(alloc: Global) -> ReachedSides
        ensures lists { (id : ℕ) → list_of result.reached id ≡ None }
        ensures ids { (from : List Tree) → AreKnownIds from result.pool result.known_ids }
        ensures known { (rules : List RewriteRule) → IsKnown rules result.pool result.known }
    {
        ReachedSides {
            pool: Pool::new(alloc),
            known_ids: KnownIds::new(alloc),
            known: Known::new(alloc),
            reached: KeptLists::new(alloc),
        }
    }

    /// The id of the side that has an id in another pool. What it reaches is listed and marked, if
    /// it is not listed yet.
    pub(crate) fn list<M: Marks>(
        &mut self,
        alloc: Global,
        by_root: &RulesByRoot,
        from: &Pool,
        side: u32,
        marks: &mut M,
    ) -> Result<u32, OutOfMemory>
        requires there { side < length from.now }
        requires side { IsSide (tree_at from.now side) }
        requires sides { AreReached by_root.now.rules from.now self.old }
        requires marks { AreMarksOf M.has_mark M.of_pool by_root.now.rules self.old marks.old }
        ensures id { IfOk result (λ id. StandsFor self.new.pool id (tree_at from.now side)) }
        ensures listed { IfOk result (λ id. IsTrue (is_some (list_of self.new.reached id))) }
        ensures still { OnOk result ((i : ℕ) → IsTrue (is_some (list_of self.old.reached i))
            → IsTrue (is_some (list_of self.new.reached i))) }
        ensures sides { OnOk result (AreReached by_root.now.rules from.now self.new) }
        ensures marks { OnOk result (
            AreMarksOf M.has_mark M.of_pool by_root.now.rules self.new marks.new) }
        ensures kept { OnOk result (Extends self.old.pool self.new.pool) }
    {
        M::last();
        let id = self.pool.take_over(alloc, from, side, &mut self.known_ids)?;
        if self.reached.has(id) {
            return Ok(id);
        }
        let list = reach(alloc, &mut self.pool, by_root, id, &mut self.known)?;
        mark_all(alloc, &self.pool, by_root, &list, marks)?;
        self.reached.put(id, list)?;
        Ok(id)
    }

    /// What the side of an id reaches.
    pub(crate) fn at(&self, id: u32) -> &[(u32, Vec<PathStep>)]
        requires { IsTrue (is_some (list_of self.now.reached id)) }
        ensures { list_of self.now.reached id ≡ Some result.now }
    {
        self.reached.at(id)
    }

    /// The pool of all sides and of what they reach.
    pub(crate) fn pool(&self) -> &Pool
        ensures is { result.now ≡ self.now.pool }
    {
        &self.pool
    }

    fn has_room(&self, bytes_of_marks: u64) -> bool {
        let bytes = self.reached.bytes().saturating_add(bytes_of_marks);
        self.pool.len() <= MOST_KEPT_IDS && bytes <= MOST_KEPT_BYTES
    }
}

/// Makes room for two sides. Where many ids, long lists or many marks are kept, all are given up.
pub(crate) fn make_room<M: Marks>(alloc: Global, sides: &mut ReachedSides, marks: &mut M)
    ensures sides { (rules : List RewriteRule) (from : List Tree)
        → AreReached rules from sides.old → AreReached rules from sides.new }
    ensures marks { (rules : List RewriteRule)
        → AreMarksOf M.has_mark M.of_pool rules sides.old marks.old
        → AreMarksOf M.has_mark M.of_pool rules sides.new marks.new }
{
    if sides.has_room(marks.bytes()) {
        return;
    }
    *sides = ReachedSides::new(alloc);
    *marks = M::new(alloc);
}
