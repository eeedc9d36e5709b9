//! Sets of variables.
ghost use Rattle.std.specs.Prelude.{◌≡◌, ◌==◌, ◌||◌, ℕ, false, not, IfOk, OnOk};
ghost use Rattle.trs_core.specs.VariableSet.{holds};

use crate::OutOfMemory;
use std::alloc::Global;
use std::collections::BTreeSet;

/// A set of variables. Mostly they are numbered in order of first occurrence: then a count is enough.
#[derive(Drop)]
pub(crate) struct VariableSet {
    /// So many, the first ones, are in the set.
    first: u32,
    others: BTreeSet<u32>,
}

impl VariableSet {
    /// None. It takes no memory.
    pub(crate) fn new(alloc: Global) -> VariableSet
        ensures { (x : ℕ) → holds result x ≡ false }
    {
        VariableSet {
            first: 0,
            others: BTreeSet::new(alloc),
        }
    }

    pub(crate) fn has(&self, v: u32) -> bool
        ensures { result ≡ holds self.now v }
    {
        v < self.first || self.others.contains(&v)
    }

    /// Adds a variable. The answer is whether it was not there.
    pub(crate) fn insert(&mut self, v: u32) -> Result<bool, OutOfMemory>
        ensures added { OnOk result ((x : ℕ) → holds self.new x ≡ (holds self.old x || v == x)) }
        ensures new { IfOk result (λ is_new. is_new ≡ not (holds self.old v)) }
    {
        if self.has(v) {
            return Ok(false);
        }
        if v == self.first && v < u32::MAX {
            self.first = v + 1;
            return Ok(true);
        }
        self.others.insert(v)?;
        Ok(true)
    }
}
