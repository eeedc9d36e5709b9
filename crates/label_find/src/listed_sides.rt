//! The sides of peaks, with the paths from them.
ghost use Rattle.std.specs.Prelude.{◌≡◌, ◌<◌, ℕ, List, Some, is_some, length, IsTrue, IfOk, OnOk};
ghost use Rattle.trs_defs.specs.Tree.{Tree};
ghost use Rattle.trs_defs.specs.System.{RewriteRule};
ghost use Rattle.term_pool.specs.Pooled.{Extends, StandsFor, tree_at};
ghost use Rattle.join_find.specs.Sides.{IsSide};
ghost use Rattle.join_find.specs.KeptLists.{list_of};
ghost use Rattle.path_lists.specs.Growth.{GrowsBy};
ghost use Rattle.label_find.specs.declared.side_rules.SideRules.{SideRules};
ghost use Rattle.label_find.specs.ListedSides.{AreListed, HaveShortPaths, IsNumbered, AreNumbered};
ghost use Rattle.label_find.specs.ListedSides.{HasSameLists, IsFrontOf};

use crate::side_rules::SideRules;
use indexmap::IndexMap;
use join_find::KeptLists;
use path_lists::{KnownEnds, paths_from};
use rewrite_core::PathStep;
use std::alloc::Global;
use term_pool::{KnownIds, Pool, RulesByRoot};
use trs_core::{OutOfMemory, Trs};

/// The most ids that are kept from one peak to the next.
const MOST_KEPT_IDS: u32 = 262_144;

/// The most bytes of lists, by estimate, that are kept from one peak to the next.
const MOST_KEPT_BYTES: u64 = 67_108_864;

/// Sides of peaks in one pool. The paths from a side are listed once. A side whose rules stand in
/// a table has its number there.
#[derive(Drop)]
pub(crate) struct ListedSides {
    pool: Pool,
    known: KnownIds,
    ends: KnownEnds,
    lists: KeptLists,
    numbers: IndexMap<u32, usize>,
}

impl ListedSides {
    /// No sides. It takes no memory.
    pub(crate) fn new(alloc: Global) -> ListedSides
        ensures sides { (rules : List RewriteRule) (from : List Tree)
            → AreListed rules from result }
        ensures numbers { (table : List SideRules) → AreNumbered result table }
    {
        ListedSides {
            pool: Pool::new(alloc),
            known: KnownIds::new(alloc),
            ends: KnownEnds::new(alloc),
            lists: KeptLists::new(alloc),
            numbers: IndexMap::new(alloc),
        }
    }

    /// Makes room for two sides. Where many ids or long lists are kept, all are given up, and the
    /// numbers with them.
    pub(crate) fn make_room(&mut self, alloc: Global)
        ensures sides { (rules : List RewriteRule) (from : List Tree)
            → AreListed rules from self.old → AreListed rules from self.new }
        ensures numbers { (table : List SideRules) → AreNumbered self.old table
            → AreNumbered self.new table }
    {
        if self.pool.len() <= MOST_KEPT_IDS && self.lists.bytes() <= MOST_KEPT_BYTES {
            return;
        }
        self.pool = Pool::new(alloc);
        self.known = KnownIds::new(alloc);
        self.ends = KnownEnds::new(alloc);
        self.lists = KeptLists::new(alloc);
        self.numbers = IndexMap::new(alloc);
    }

    /// The id of the side that has an id in another pool. Its paths are listed, if they are not
    /// listed yet.
    pub(crate) fn list(
        &mut self,
        alloc: Global,
        trs: &Trs,
        by_root: &RulesByRoot,
        growth: u64,
        from: &Pool,
        side: u32,
    ) -> Result<u32, OutOfMemory>
        requires table { by_root.now ≡ trs.now }
        requires grows { GrowsBy trs.now.rules growth }
        requires there { side < length from.now }
        requires side { IsSide (tree_at from.now side) }
        requires sides { AreListed trs.now.rules from.now self.old }
        ensures id { IfOk result (λ id. StandsFor self.new.pool id (tree_at from.now side)) }
        ensures listed { IfOk result (λ id. IsTrue (is_some (list_of self.new.lists id))) }
        ensures still { OnOk result ((i : ℕ) → IsTrue (is_some (list_of self.old.lists i))
            → IsTrue (is_some (list_of self.new.lists i))) }
        ensures sides { OnOk result (AreListed trs.now.rules from.now self.new) }
        ensures kept { OnOk result (Extends self.old.pool self.new.pool) }
        ensures numbers { OnOk result ((table : List SideRules) → AreNumbered self.old table
            → AreNumbered self.new table) }
    {
        let id = self.pool.take_over(alloc, from, side, &mut self.known)?;
        if self.lists.has(id) {
            return Ok(id);
        }
        let ends = &mut self.ends;
        let list = paths_from(alloc, &mut self.pool, trs, by_root, id, growth, ends)?;
        self.lists.put(id, list)?;
        Ok(id)
    }

    /// The paths from the side of an id.
    pub(crate) fn at(&self, id: u32) -> &[(u32, Vec<PathStep>)]
        requires { IsTrue (is_some (list_of self.now.lists id)) }
        ensures { list_of self.now.lists id ≡ Some result.now }
    {
        self.lists.at(id)
    }

    /// The number of a side in the table, by its id. The rules along its paths are put there, if
    /// they are not there yet.
    pub(crate) fn number(
        &mut self,
        alloc: Global,
        id: u32,
        table: &mut Vec<SideRules>,
    ) -> Result<usize, OutOfMemory>
        requires listed { IsTrue (is_some (list_of self.old.lists id)) }
        requires short { HaveShortPaths self.old }
        requires numbers { AreNumbered self.old table.old.items }
        ensures number { IfOk result (IsNumbered self.new table.new.items id) }
        ensures numbers { OnOk result (AreNumbered self.new table.new.items) }
        ensures grown { OnOk result (IsFrontOf table.old.items table.new.items) }
        ensures same { OnOk result (HasSameLists self.old self.new) }
    {
        if let Some(number) = self.numbers.get(&id) {
            return Ok(*number);
        }
        let side = SideRules::new(alloc, self.lists.at(id))?;
        let number = table.len();
        table.push(side)?;
        self.numbers.insert(id, number)?;
        Ok(number)
    }

    /// The pool of all sides and of what they reach.
    pub(crate) fn pool(&self) -> &Pool
        ensures is { result.now ≡ self.now.pool }
    {
        &self.pool
    }
}
