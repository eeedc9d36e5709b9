ghost use Rattle.std.specs.Prelude.{◌≡◌, ◌++◌, ◌∷◌, ◌<◌, ◌^◌, [], length, slice_get, Some, None, IfSome, OnOk, OnErr, true};
ghost use Rattle.names_text.specs.Names.{number_among, are_distinct};

use crate::index::Index;
use std::alloc::{AllocError, Global};
use std::marker::Model;

/// Names, each once, numbered from 0 in the order in which they were added. Contracts see the list of the names.
/// There is room for 2^32 - 1 names.
#[derive(Drop)]
pub struct Names {
    names: Vec<Vec<u8>>,
    index: Index,
}

impl Model for Names {
    ghost use Rattle.std.specs.Prelude.{ℕ, List, map};
    ghost use Rattle.names_text.specs.NameTable.{IsNameTable};

    ghost Value = { List (List ℕ) };

    ghost view = { λ s. map (λ n. n.items) s.names.items };

    ghost invariant = { λ s. IsNameTable (map (λ n. n.items) s.names.items) s.index };
}

impl Names {
    pub fn new(alloc: Global) -> Names
        ensures { result ≡ [] }
    {
        Names {
            names: Vec::new(alloc),
            index: Index::new(alloc),
        }
    }

    pub fn len(&self) -> usize
        ensures len { result ≡ length self.now }
        ensures distinct { are_distinct self.now ≡ true }
        ensures small { result < 2 ^ 32 }
    {
        self.names.len()
    }

    /// The number of a name, if it is among them.
    pub fn find(&self, name: &[u8]) -> Option<usize>
        ensures number { result ≡ number_among self.now name.now }
        ensures within { IfSome result (λ i. i < length self.now) }
        ensures small { IfSome result (λ i. i < 2 ^ 32) }
    {
        let number = self.index.find(&self.names, name)?;
        Some(number as usize)
    }

    /// The name with a number.
    pub fn get(&self, number: usize) -> &[u8]
        requires { number < length self.now }
        ensures { slice_get self.now number ≡ Some result.now }
    {
        &self.names[number]
    }

    /// One more name, which is not among them. Where there is no room for it memory ran out too.
    pub fn add(&mut self, name: Vec<u8>) -> Result<(), AllocError>
        requires { number_among self.old name.items ≡ None }
        ensures ok { OnOk result (self.new ≡ self.old ++ name.items ∷ []) }
        ensures err { OnErr result (self.new ≡ self.old) }
    {
        let next = self.names.len();
        if next >= u32::MAX as usize {
            return Err(AllocError);
        }
        let alloc = *name.allocator();
        self.index.grow(alloc, &self.names)?;
        self.names.push(name)?;
        match self.index.add(alloc, &self.names[next], next as u32) {
            Ok(()) => Ok(()),
            Err(fault) => {
                self.names.pop();
                Err(fault)
            }
        }
    }
}
