ghost use Rattle.std.specs.Prelude.{◌≡◌, ◌<◌, ◌++◌, [], ◌∷◌, true, length, IfOk, OnOk};
ghost use Rattle.std.specs.Ordering.{nat_cmp};
ghost use Rattle.std.specs.BTreeSet.{Updates};
ghost use Rattle.term_pool.specs.Reached.{Begins, IsEntry};

use crate::PathStep;
use crate::paths::copy_path;
use std::alloc::Global;
use std::collections::BTreeSet;
use trs_core::OutOfMemory;

/// What a search has reached: ids in the order in which they were found, each with the path to it,
/// and the same ids as a set.
#[derive(Drop)]
pub(crate) struct Reached {
    pub(crate) list: Vec<(u32, Vec<PathStep>)>,
    pub(crate) ids: BTreeSet<u32>,
}

impl Reached {
    /// One id, with the empty path.
    pub(crate) fn new(alloc: Global, id: u32) -> Result<Reached, OutOfMemory>
        ensures { IfOk result (Begins id) }
    {
        let mut reached = Reached {
            list: Vec::new(alloc),
            ids: BTreeSet::new(alloc),
        };
        reached.push(id, Vec::new(alloc))?;
        Ok(reached)
    }

    /// An id of the list, with its path.
    pub(crate) fn entry(&self, alloc: Global, i: usize) -> Result<(u32, Vec<PathStep>), OutOfMemory>
        requires { i < length self.now.list.items }
        ensures { IfOk result (IsEntry self.now i) }
    {
        let entry = &self.list[i];
        Ok((entry.0, copy_path(alloc, &entry.1)?))
    }

    /// Lists an id with its path.
    pub(crate) fn push(&mut self, id: u32, path: Vec<PathStep>) -> Result<(), OutOfMemory>
        ensures list { OnOk result (
            self.new.list.items ≡ self.old.list.items ++ (id, path) ∷ []) }
        ensures ids { OnOk result (Updates nat_cmp self.old.ids self.new.ids id true) }
    {
        self.ids.insert(id)?;
        self.list.push((id, path))?;
        Ok(())
    }
}
