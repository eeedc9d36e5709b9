//! An index of names: slots by their hashes, and trees for the names whose slots others have.
ghost use Rattle.std.specs.Prelude.{◌≡◌, ◌↔◌, ◌<◌, ◌≤◌, ◌^◌, [], List, ℕ, length, map, slice_get, Option, Some, None, IfOk, OnOk, OnErr, IsTrue, true, bytes_eq};
ghost use Rattle.names_text.specs.Names.{number_among, are_distinct};
ghost use Rattle.names_text.specs.NameTable.{Adds, IsIndex, free, front, hash_of, last_byte, number_behind_slot, number_by_look, number_by_slot, second_hash_of, slot_for, slot_of};

use crate::trees::NameTrees;
use std::alloc::{AllocError, Global};
use std::hash::{FoldHasher, Hasher};

/// So many names have no slots, and each of them is looked at.
const FEW: usize = 8;

/// The least number of slots, where there are any. As it is a power of two, so are all.
const LEAST_SLOTS: usize = 128;

/// With so many slots or more an index does not grow.
const MOST_SLOTS: usize = 1 << 21;

/// How many bytes of a name are hashed at most.
const HASHED: usize = 256;

/// The number of no name.
const FREE: u32 = u32::MAX;

/// Numbers of names. A name has two slots, by two hashes, and the first of them that was free when it was added has its
/// number. So most names are found, or are found missing, at one look or two, and names with one hash too. The others
/// stand in trees, since whoever writes a text can make both hashes collide.
#[derive(Drop)]
pub(crate) struct Index {
    slots: Vec<u32>,
    trees: NameTrees,
}

/// What one of its slots says of a name.
enum Look {
    /// No name has the slot, so this one is not there.
    Free,
    /// The name has the slot, and this number.
    Own(u32),
    /// Another name has the slot, or there are no slots.
    Taken,
}

impl Index {
    /// The index of no names, with no slots.
    pub(crate) fn new(alloc: Global) -> Index
        ensures { IsIndex [] result }
    {
        Index {
            slots: Vec::new(alloc),
            trees: NameTrees::new(alloc),
        }
    }

    /// The index of names, with so many slots.
    fn of(alloc: Global, names: &[Vec<u8>], slots: usize) -> Result<Index, AllocError>
        requires small { length names.now < 2 ^ 32 }
        requires distinct { are_distinct (map (λ n. n.items) names.now) ≡ true }
        ensures { IfOk result (λ index. IsIndex (map (λ n. n.items) names.now) index) }
    {
        let mut index = Index {
            slots: vec![in alloc; FREE; slots]?,
            trees: NameTrees::new(alloc),
        };
        for (number, name) in names.iter().enumerate() {
            index.add(alloc, name, number as u32)?;
        }
        Ok(index)
    }

    /// Gets slots, or more of them, where so many names should have them.
    pub(crate) fn grow(&mut self, alloc: Global, names: &[Vec<u8>]) -> Result<(), AllocError>
        requires small { length names.now < 2 ^ 32 }
        requires distinct { are_distinct (map (λ n. n.items) names.now) ≡ true }
        requires index { IsIndex (map (λ n. n.items) names.now) self.old }
        ensures { IsIndex (map (λ n. n.items) names.now) self.new }
    {
        if let Some(slots) = self.grows_to(names.len()) {
            *self = Index::of(alloc, names, slots)?;
        }
        Ok(())
    }

    /// With how many slots so many names should get another index, if they should: where they are an eighth of the slots.
    fn grows_to(&self, names: usize) -> Option<usize> {
        let slots = self.slots.len();
        if slots == 0 {
            return if names < FEW { None } else { Some(LEAST_SLOTS) };
        }
        if slots < MOST_SLOTS && names >= slots / 8 {
            Some(slots * 4)
        } else {
            None
        }
    }

    /// The number of a name.
    pub(crate) fn find(&self, names: &[Vec<u8>], name: &[u8]) -> Option<u32>
        requires { IsIndex (map (λ n. n.items) names.now) self.now }
        ensures { result ≡ number_among (map (λ n. n.items) names.now) name.now }
    {
        if names.len() <= FEW {
            return find_among_few(names, name);
        }
        match self.look(names, name, hash(name)) {
            Look::Free => None,
            Look::Own(number) => Some(number),
            Look::Taken => self.find_behind(names, name, second_hash(name)),
        }
    }

    /// The number of a name by its second slot, and by the trees behind it.
    fn find_behind(&self, names: &[Vec<u8>], name: &[u8], hash: u64) -> Option<u32>
        requires { hash ≡ second_hash_of name.now }
        ensures { result ≡ number_behind_slot (map (λ n. n.items) names.now) self.now name.now }
    {
        match self.look(names, name, hash) {
            Look::Free => None,
            Look::Own(number) => Some(number),
            Look::Taken => self.trees.find(names, name, hash),
        }
    }

    /// What the slot for a hash says of a name.
    fn look(&self, names: &[Vec<u8>], name: &[u8], hash: u64) -> Look
        ensures { (others : Option ℕ) → number_by_slot (map (λ n. n.items) names.now)
            (slot_for self.now hash) others name.now ≡ number_by_look result others }
    {
        let Some(number) = self.slots.get(self.slot(hash)) else {
            return Look::Taken;
        };
        match names.get(*number as usize) {
            None => Look::Free,
            Some(other) if is_same(other, name) => Look::Own(*number),
            Some(_) => Look::Taken,
        }
    }

    /// One more name, which is new, and its number.
    pub(crate) fn add(&mut self, alloc: Global, name: &[u8], number: u32) -> Result<(), AllocError>
        requires { number < free }
        ensures ok { OnOk result (Adds self.old self.new name.now number) }
        ensures err { OnErr result ((names : List (List ℕ)) → IsIndex names self.old
            → IsIndex names self.new) }
    {
        let first = self.slot(hash(name));
        if self.is_free(first) {
            self.slots[first] = number;
            return Ok(());
        }
        let hash = second_hash(name);
        let second = self.slot(hash);
        if self.is_free(second) {
            self.slots[second] = number;
            return Ok(());
        }
        self.trees.add(alloc, name, hash, number)?;
        Ok(())
    }

    /// The slot for a hash.
    fn slot(&self, hash: u64) -> usize
        ensures { result ≡ slot_of (length self.now.slots.items) hash }
    {
        hash as usize & self.slots.len().saturating_sub(1)
    }

    /// Whether no name has the slot.
    fn is_free(&self, slot: usize) -> bool
        ensures { IsTrue result ↔ (slice_get self.now.slots.items slot ≡ Some free) }
    {
        match self.slots.get(slot) {
            Some(number) => *number == FREE,
            None => false,
        }
    }
}

/// The number of a name, for which each of a few is looked at.
fn find_among_few(names: &[Vec<u8>], name: &[u8]) -> Option<u32>
    requires { length names.now ≤ 8 }
    ensures { result ≡ number_among (map (λ n. n.items) names.now) name.now }
{
    for (number, other) in names.iter().enumerate() {
        if is_same(name, other) {
            return Some(number as u32);
        }
    }
    None
}

/// Whether two names are the same. Most are told apart by their lengths and first bytes, and the
/// others are compared where they have more bytes than one.
fn is_same(name: &[u8], other: &[u8]) -> bool
    ensures { result ≡ bytes_eq name.now other.now }
{
    if name.len() != other.len() {
        return false;
    }
    let Some(first) = name.first() else {
        return true;
    };
    *first == other[0] && (name.len() == 1 || name == other)
}

/// A hash that names have in common but for the low bits, where only the last bytes of their fronts
/// differ: so those that are counted stand beside each other, and many are looked up in one place.
fn hash(name: &[u8]) -> u64
    ensures { result ≡ hash_of name.now }
{
    let front = front(name);
    let mut hasher = FoldHasher::default();
    hasher.write(&front[..front.len().saturating_sub(1)]);
    hasher.finish() ^ last_byte(front)
}

/// The last byte, or 0 where there is none.
fn last_byte(bytes: &[u8]) -> u64
    ensures { result ≡ last_byte bytes.now }
{
    match bytes.last() {
        Some(byte) => u64::from(*byte),
        None => 0,
    }
}

/// Another hash, since names that have one hash seldom have this one in common too.
fn second_hash(name: &[u8]) -> u64
    ensures { result ≡ second_hash_of name.now }
{
    let mut hasher = FoldHasher::default();
    hasher.write(&[1]);
    hasher.write(front(name));
    hasher.finish()
}

/// What is hashed of a name: long ones are told apart by trees where they have one front.
fn front(name: &[u8]) -> &[u8]
    ensures { result.now ≡ front name.now }
{
    if name.len() <= HASHED {
        return name;
    }
    &name[..HASHED]
}
