ghost use Rattle.std.specs.Prelude.{◌≡◌, ℕ, None, OnOk};
ghost use Rattle.term_pool.specs.Bindings.{bound, IsBoundTo, part_id};

use smallvec::SmallVec;
use std::alloc::Global;
use std::collections::BTreeMap;
use trs_core::{MOST_VARIABLES, OutOfMemory};

/// Ids for variables. Those for the variables 0, 1, .. are listed as long as they come in this
/// order, as a rule's variables mostly do; the others are in a map. Variables behind those that
/// rules have may stand for the first ids, in order.
#[derive(Drop)]
pub(crate) struct Bindings {
    listed: SmallVec<u32, 8, Global>,
    others: BTreeMap<u32, u32>,
    parts: u32,
}

impl Bindings {
    /// No variable has an id. It takes no memory.
    pub(crate) fn new(alloc: Global) -> Bindings
        ensures { (v : ℕ) → bound result v ≡ None }
    {
        Bindings::with_parts(alloc, 0)
    }

    /// No variable has an id but those that stand for the ids below `parts`. It takes no memory.
    pub(crate) fn with_parts(alloc: Global, parts: u32) -> Bindings
        ensures { (v : ℕ) → bound result v ≡ part_id parts v }
    {
        Bindings {
            listed: SmallVec::new(alloc),
            others: BTreeMap::new(alloc),
            parts,
        }
    }

    /// The id of a variable.
    pub(crate) fn get(&self, v: u32) -> Option<u32>
        ensures { result ≡ bound self.now v }
    {
        match self.listed.as_slice().get(v as usize) {
            Some(id) => Some(*id),
            None => match self.others.get(&v) {
                Some(id) => Some(*id),
                None => part(self.parts, v),
            },
        }
    }

    /// Gives an id to a variable that has none.
    pub(crate) fn bind(&mut self, v: u32, id: u32) -> Result<(), OutOfMemory>
        requires { bound self.old v ≡ None }
        ensures { OnOk result (IsBoundTo v id self.old self.new) }
    {
        if v as usize == self.listed.len() {
            self.listed.push(id)?;
        } else {
            self.others.insert(v, id)?;
        }
        Ok(())
    }
}

/// The id for which a variable stands that no rule has, if it is below `parts`.
pub(crate) fn part(parts: u32, v: u32) -> Option<u32>
    ensures { result ≡ part_id parts v }
{
    if v < MOST_VARIABLES || v - MOST_VARIABLES >= parts {
        return None;
    }
    Some(v - MOST_VARIABLES)
}
