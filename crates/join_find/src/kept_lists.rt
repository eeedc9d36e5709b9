//! Lists of ids with paths that are kept for later use.
ghost use Rattle.std.specs.Prelude.{◌≡◌, ℕ, None, Some, is_some, IsTrue, OnOk};
ghost use Rattle.join_find.specs.KeptLists.{list_of, IsPut};

use indexmap::IndexMap;
use rewrite_core::PathStep;
use std::alloc::Global;
use trs_core::OutOfMemory;

/// The bytes of an entry and of a step, by estimate. The places of a step come on top.
const BYTES_OF_ITEM: u64 = 64;

/// Lists of ids with paths, each by an id of its own.
#[derive(Drop)]
pub struct KeptLists {
    by_id: IndexMap<u32, Vec<(u32, Vec<PathStep>)>>,
    bytes: u64,
}

impl KeptLists {
    /// No lists. It takes no memory.
    pub fn new(alloc: Global) -> KeptLists
        ensures { (id : ℕ) → list_of result id ≡ None }
    {
        KeptLists {
            by_id: IndexMap::new(alloc),
            bytes: 0,
        }
    }

    /// Whether an id has a list.
    pub fn has(&self, id: u32) -> bool
        ensures { result ≡ is_some (list_of self.now id) }
    {
        self.by_id.contains_key(&id)
    }

    /// The list of an id.
    pub fn at(&self, id: u32) -> &[(u32, Vec<PathStep>)]
        requires { IsTrue (is_some (list_of self.now id)) }
        ensures { list_of self.now id ≡ Some result.now }
    {
        match self.by_id.get(&id) {
            Some(list) => list.as_slice(),
            None => unreachable!(),
        }
    }

    /// Makes a list that of an id.
    pub fn put(&mut self, id: u32, list: Vec<(u32, Vec<PathStep>)>) -> Result<(), OutOfMemory>
        ensures { OnOk result (IsPut id list.items self.old self.new) }
    {
        self.bytes = self.bytes.saturating_add(bytes_of(list.as_slice()));
        self.by_id.insert(id, list)?;
        Ok(())
    }

    /// The bytes of all lists, by estimate.
    pub fn bytes(&self) -> u64 {
        self.bytes
    }
}

/// The bytes of a list, by estimate.
fn bytes_of(list: &[(u32, Vec<PathStep>)]) -> u64 {
    let mut bytes: u64 = 0;
    for entry in list {
        bytes = bytes.saturating_add(BYTES_OF_ITEM);
        for step in &entry.1 {
            let places = step.place.places().len() as u64;
            bytes = bytes.saturating_add(BYTES_OF_ITEM).saturating_add(places);
        }
    }
    bytes
}
