//! The sides of peaks, with what they reach.
ghost use Rattle.std.specs.Prelude.{◌≡◌, ◌<◌, ℕ, List, length, is_some, IsTrue};
ghost use Rattle.std.specs.Prelude.{IfOk, OnOk, MatchOption};
ghost use Rattle.trs_defs.specs.Tree.{Tree};
ghost use Rattle.trs_defs.specs.System.{RewriteRule};
ghost use Rattle.term_pool.specs.Pooled.{Extends, StandsFor, tree_at};
ghost use Rattle.rewrite_core.specs.PlacedPeak.{PlacedPeak};
ghost use Rattle.join_find.specs.KeptLists.{list_of};
ghost use Rattle.join_find.specs.ReachedSides.{IsNarrowAt, AreReached, HasKnownIds};
ghost use Rattle.join_find.specs.NewmanRow.{IsFirstJoin, HasNoJoin};
ghost use Rattle.join_find.specs.StrongRow.{IsFirstHalf, HasNoHalf};

use crate::common::first_common;
use crate::kept_lists::KeptLists;
use crate::near::near;
use crate::reaching::reach;
use closed_pairs::Join;
use std::alloc::Global;
use term_pool::{Known, KnownIds, Pool, RulesByRoot, ids_are_distinct};
use trs_core::OutOfMemory;

/// The most ids that are kept from one peak to the next.
const MOST_KEPT_IDS: u32 = 262_144;

/// The most bytes of lists, by estimate, that are kept from one peak to the next.
const MOST_KEPT_BYTES: u64 = 268_435_456;

/// Sides of peaks in one pool. What a side reaches is listed once, and what is near it once for as
/// long as the pool has no new terms.
#[derive(Drop)]
pub(crate) struct ReachedSides {
    pool: Pool,
    /// The ids of sides, by those that they have in another pool.
    known_ids: KnownIds,
    /// What was found out about ids of the pool.
    known: Known,
    reached: KeptLists,
    near: KeptLists,
}

impl ReachedSides {
    /// No sides. It takes no memory.
    pub(crate) fn new(alloc: Global) -> ReachedSides
        ensures sides { (rules : List RewriteRule) → AreReached rules result }
        ensures ids { (terms : List Tree) → HasKnownIds terms result }
    {
        ReachedSides {
            pool: Pool::new(alloc),
            known_ids: KnownIds::new(alloc),
            known: Known::new(alloc),
            reached: KeptLists::new(alloc),
            near: KeptLists::new(alloc),
        }
    }

    /// Makes room for two sides. Where many ids or long lists are kept, all are given up.
    pub(crate) fn make_room(&mut self, alloc: Global)
        ensures sides { (rules : List RewriteRule) → AreReached rules self.old
            → AreReached rules self.new }
        ensures ids { (terms : List Tree) → HasKnownIds terms self.old
            → HasKnownIds terms self.new }
    {
        let bytes = self.reached.bytes().saturating_add(self.near.bytes());
        if self.pool.len() <= MOST_KEPT_IDS && bytes <= MOST_KEPT_BYTES {
            return;
        }
        self.pool = Pool::new(alloc);
        self.known_ids = KnownIds::new(alloc);
        self.known = Known::new(alloc);
        self.reached = KeptLists::new(alloc);
        self.near = KeptLists::new(alloc);
    }

    /// The id of a side that has this id in another pool.
    pub(crate) fn intern(
        &mut self,
        alloc: Global,
        from: &Pool,
        side: u32,
    ) -> Result<u32, OutOfMemory>
        requires there { side < length from.now }
        requires ids { HasKnownIds from.now self.old }
        ensures id { IfOk result (λ id. StandsFor self.new.pool id (tree_at from.now side)) }
        ensures ids { OnOk result (HasKnownIds from.now self.new) }
        ensures sides { (rules : List RewriteRule) → AreReached rules self.old
            → OnOk result (AreReached rules self.new) }
        ensures kept { OnOk result (Extends self.old.pool self.new.pool) }
    {
        let mark = self.pool.mark();
        let id = self.pool.take_over(alloc, from, side, &mut self.known_ids)?;
        if self.pool.len() == mark {
            return Ok(id);
        }
        self.near = KeptLists::new(alloc);
        Ok(id)
    }

    /// The paths to the first term that the left side reaches among those that the right side
    /// reaches, if there is one.
    pub(crate) fn first_join(
        &mut self,
        alloc: Global,
        by_root: &RulesByRoot,
        left: u32,
        right: u32,
    ) -> Result<Option<Join>, OutOfMemory>
        requires left { IsNarrowAt self.old.pool left }
        requires right { IsNarrowAt self.old.pool right }
        requires sides { AreReached by_root.now.rules self.old }
        ensures join { (peak : PlacedPeak) → StandsFor self.old.pool left peak.left
            → StandsFor self.old.pool right peak.right → IfOk result (λ found. MatchOption found
            (HasNoJoin by_root.now.rules peak) (IsFirstJoin by_root.now.rules peak)) }
        ensures sides { OnOk result (AreReached by_root.now.rules self.new) }
        ensures ids { (terms : List Tree) → HasKnownIds terms self.old
            → OnOk result (HasKnownIds terms self.new) }
    {
        self.list_reached(alloc, by_root, left)?;
        self.list_reached(alloc, by_root, right)?;
        ids_are_distinct(&self.pool);
        first_common(alloc, self.reached.at(left), self.reached.at(right))
    }

    /// The paths to the first term that one side reaches and that the other is, or reaches in one
    /// step, if there is one.
    pub(crate) fn first_half(
        &mut self,
        alloc: Global,
        by_root: &RulesByRoot,
        from: u32,
        to: u32,
    ) -> Result<Option<Join>, OutOfMemory>
        requires from { IsNarrowAt self.old.pool from }
        requires to { IsNarrowAt self.old.pool to }
        requires sides { AreReached by_root.now.rules self.old }
        ensures half { (s t : Tree) → StandsFor self.old.pool from s
            → StandsFor self.old.pool to t → IfOk result (λ found. MatchOption found
            (HasNoHalf by_root.now.rules s t) (IsFirstHalf by_root.now.rules s t)) }
        ensures sides { OnOk result (AreReached by_root.now.rules self.new) }
        ensures ids { (terms : List Tree) → HasKnownIds terms self.old
            → OnOk result (HasKnownIds terms self.new) }
        ensures kept { OnOk result (Extends self.old.pool self.new.pool) }
    {
        self.list_reached(alloc, by_root, from)?;
        self.list_near(alloc, by_root, to)?;
        ids_are_distinct(&self.pool);
        first_common(alloc, self.reached.at(from), self.near.at(to))
    }

    /// Lists what an id's term reaches, if it is not listed yet.
    fn list_reached(
        &mut self,
        alloc: Global,
        by_root: &RulesByRoot,
        id: u32,
    ) -> Result<(), OutOfMemory>
        requires narrow { IsNarrowAt self.old.pool id }
        requires sides { AreReached by_root.now.rules self.old }
        ensures listed { OnOk result (IsTrue (is_some (list_of self.new.reached id))) }
        ensures still { OnOk result ((i : ℕ) → IsTrue (is_some (list_of self.old.reached i))
            → IsTrue (is_some (list_of self.new.reached i))) }
        ensures sides { OnOk result (AreReached by_root.now.rules self.new) }
        ensures ids { (terms : List Tree) → HasKnownIds terms self.old
            → OnOk result (HasKnownIds terms self.new) }
        ensures kept { OnOk result (Extends self.old.pool self.new.pool) }
    {
        if self.reached.has(id) {
            return Ok(());
        }
        let list = reach(alloc, &mut self.pool, by_root, id, &mut self.known)?;
        self.near = KeptLists::new(alloc);
        self.reached.put(id, list)
    }

    /// Lists what is near an id's term, if it is not listed yet.
    fn list_near(
        &mut self,
        alloc: Global,
        by_root: &RulesByRoot,
        id: u32,
    ) -> Result<(), OutOfMemory>
        requires narrow { IsNarrowAt self.old.pool id }
        requires sides { AreReached by_root.now.rules self.old }
        ensures listed { OnOk result (IsTrue (is_some (list_of self.new.near id))) }
        ensures sides { OnOk result (AreReached by_root.now.rules self.new) }
        ensures ids { (terms : List Tree) → HasKnownIds terms self.old
            → OnOk result (HasKnownIds terms self.new) }
        ensures reached { OnOk result (self.new.reached ≡ self.old.reached) }
        ensures same { OnOk result (self.new.pool ≡ self.old.pool) }
    {
        if self.near.has(id) {
            return Ok(());
        }
        let list = near(alloc, &mut self.pool, by_root, id, &mut self.known)?;
        self.near.put(id, list)
    }
}
