//! Trees by which names are found, however their hashes were chosen.
ghost use Rattle.std.specs.Prelude.{◌≡◌, [], List, ℕ, length, map, None, OnOk, OnErr};
ghost use Rattle.names_text.specs.NameTable.{AreWithin, HaveMore, second_hash_of, number_by_trees};

use std::alloc::{AllocError, Global};
use std::collections::BTreeMap;

/// Numbers of names: most are found by the hashes of the names, and those of names whose hash an earlier one has by the
/// names themselves.
#[derive(Drop)]
pub(crate) struct NameTrees {
    /// For each hash the first name that has it.
    first: BTreeMap<u64, u32>,
    /// The other names.
    others: BTreeMap<Vec<u8>, u32>,
}

impl NameTrees {
    /// Trees with no names.
    pub(crate) fn new(alloc: Global) -> NameTrees
        ensures within { AreWithin [] result }
        ensures none { (name : List ℕ) → number_by_trees [] result name ≡ None }
    {
        NameTrees {
            first: BTreeMap::new(alloc),
            others: BTreeMap::new(alloc),
        }
    }

    /// The number that they have for a name with this hash.
    pub(crate) fn find(&self, names: &[Vec<u8>], name: &[u8], hash: u64) -> Option<u32>
        requires { hash ≡ second_hash_of name.now }
        ensures { result ≡ number_by_trees (map (λ n. n.items) names.now) self.now name.now }
    {
        if let Some(number) = self.others.get(name) {
            return Some(*number);
        }
        let number = *self.first.get(&hash)?;
        match names.get(number as usize) {
            Some(other) if other.as_slice() == name => Some(number),
            _ => None,
        }
    }

    /// One more name with this hash, which they do not have, and its number.
    pub(crate) fn add(
        &mut self,
        alloc: Global,
        name: &[u8],
        hash: u64,
        number: u32,
    ) -> Result<(), AllocError>
        requires { hash ≡ second_hash_of name.now }
        ensures ok { OnOk result ((names : List (List ℕ)) → AreWithin names self.old
            → number_by_trees names self.old name.now ≡ None → length names ≡ number
            → HaveMore names name.now self.old self.new) }
        ensures within { OnErr result ((names : List (List ℕ)) → AreWithin names self.old
            → AreWithin names self.new) }
        ensures err { OnErr result ((names : List (List ℕ)) (name : List ℕ)
            → number_by_trees names self.new name ≡ number_by_trees names self.old name) }
    {
        if self.first.contains_key(&hash) {
            let key = Vec::from_slice(alloc, name)?;
            self.others.insert(key, number)?;
        } else {
            self.first.insert(hash, number)?;
        }
        Ok(())
    }
}
