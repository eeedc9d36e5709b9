ghost use Rattle.std.specs.Prelude.{◌≡◌, ℕ, min, List, Some, slice_get, IfOk, OnOk};
ghost use Rattle.trs_defs.specs.Tree.{Tree};
ghost use Rattle.trs_defs.specs.Size.{size_of};
ghost use Rattle.trs_defs.specs.System.{RewriteRule};
ghost use Rattle.term_pool.specs.Known.{IsKnown};

use std::alloc::Global;
use std::collections::{BTreeMap, BTreeSet};
use trs_core::{OutOfMemory, Rule};

/// What was found out about rules and about ids of a pool, so that it is not found out again. It
/// stays right as the pool grows.
#[derive(Drop)]
pub struct Known {
    /// The nodes of left sides, by the numbers of their rules.
    pub(crate) left_sizes: BTreeMap<u32, u32>,
    /// Ids whose terms have no redex.
    pub(crate) normal: BTreeSet<u32>,
    /// The ids of contracta, by the id of the redex and the number of the rule.
    pub(crate) contracta: BTreeMap<(u32, u32), u32>,
}

impl Known {
    /// Nothing is known. It takes no memory.
    pub fn new(alloc: Global) -> Known
        ensures { (rules : List RewriteRule) (pool : List Tree) → IsKnown rules pool result }
    {
        Known {
            left_sizes: BTreeMap::new(alloc),
            normal: BTreeSet::new(alloc),
            contracta: BTreeMap::new(alloc),
        }
    }

    /// As many nodes as the left side of rule `k` has, but at most the last `u32`.
    pub(crate) fn left_size(&mut self, rule: &Rule, k: u32) -> Result<u32, OutOfMemory>
        ensures size { (rules : List RewriteRule) (pool : List Tree)
            → slice_get rules k ≡ Some rule.now → IsKnown rules pool self.old
            → IfOk result (λ n. n ≡ min (size_of rule.now.left) u32.MAX) }
        ensures known { (rules : List RewriteRule) (pool : List Tree)
            → slice_get rules k ≡ Some rule.now → IsKnown rules pool self.old
            → OnOk result (IsKnown rules pool self.new) }
    {
        if let Some(size) = self.left_sizes.get(&k) {
            return Ok(*size);
        }
        let size = rule.left.size().min(u64::from(u32::MAX)) as u32;
        self.left_sizes.insert(k, size)?;
        Ok(size)
    }
}
