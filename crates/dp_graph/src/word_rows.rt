//! Rows of words, which have numbers.
ghost use Rattle.std.specs.Prelude.{ℕ, ◌≡◌, ◌↔◌, List, [], IfOk, IfSome, OnOk, IsTrue};
ghost use Rattle.dp_graph.specs.WordRows.{HasWords, KeepWords, AddsRow};

use crate::lists::kept;
use std::alloc::Global;
use std::collections::BTreeMap;
use trs_core::OutOfMemory;

/// How many slots are tried for a row.
const MOST_TRIES: usize = 16;

/// The least number of slots, where there are any. As it is a power of two, so are all.
const LEAST_SLOTS: usize = 64;

/// The number of no row.
const FREE: u32 = u32::MAX;

/// Rows by their numbers, which go from 0. Equal ones have one number.
#[derive(Drop)]
pub(crate) struct WordRows {
    pub(crate) rows: Vec<Vec<u64>>,
    /// Numbers of rows. A row has the first slot from that of its hash on that was free.
    slots: Vec<u32>,
    /// The numbers of rows for which none of the slots that are tried was free: whoever writes a text
    /// can give many rows one hash.
    behind: BTreeMap<Vec<u64>, u32>,
}

impl WordRows {
    /// No rows.
    pub(crate) fn new(alloc: Global) -> WordRows
        ensures { result.rows.items ≡ [] }
    {
        WordRows {
            rows: Vec::new(alloc),
            slots: Vec::new(alloc),
            behind: BTreeMap::new(alloc),
        }
    }

    /// The number of a row, which is added if there is none like it.
    pub(crate) fn number_of(&mut self, alloc: Global, row: Vec<u64>) -> Result<u32, OutOfMemory>
        ensures there { IfOk result (λ n. HasWords self.new.rows.items n row.items) }
        ensures kept { OnOk result (KeepWords self.old.rows.items self.new.rows.items) }
    {
        if let Some(number) = self.find(&row) {
            return Ok(number);
        }
        self.add(alloc, row)
    }

    /// The number of a row like this one.
    pub(crate) fn find(&self, row: &[u64]) -> Option<u32>
        ensures { IfSome result (λ n. HasWords self.now.rows.items n row.now) }
    {
        let hash = hash_of(row);
        for tried in 0..MOST_TRIES {
            let number = *self.slots.get(slot(hash, tried, self.slots.len()))?;
            if number == FREE {
                return None;
            }
            if self.has_words(number, row) {
                return Some(number);
            }
        }
        self.find_behind(row)
    }

    /// The number of a row like this one, for which no slot was free.
    fn find_behind(&self, row: &[u64]) -> Option<u32>
        ensures { IfSome result (λ n. HasWords self.now.rows.items n row.now) }
    {
        let number = *self.behind.get(row)?;
        if self.has_words(number, row) {
            Some(number)
        } else {
            None
        }
    }

    /// Whether a row has these words.
    fn has_words(&self, n: u32, words: &[u64]) -> bool
        ensures { IsTrue result → HasWords self.now.rows.items n words.now }
    {
        match self.rows.get(n as usize) {
            Some(row) => are_equal(row, words),
            None => false,
        }
    }

    /// Whether a row has no words.
    pub(crate) fn is_empty(&self, n: u32) -> bool
        ensures { (words : List ℕ) → HasWords self.now.rows.items n words →
            IsTrue result ↔ (words ≡ []) }
    {
        match self.rows.get(n as usize) {
            Some(row) => row.is_empty(),
            None => false,
        }
    }

    /// Adds a row, and gives its number.
    pub(crate) fn add(&mut self, alloc: Global, row: Vec<u64>) -> Result<u32, OutOfMemory>
        ensures { IfOk result (λ n. AddsRow row n self.old.rows.items self.new.rows.items) }
    {
        let number = kept(self.rows.len())?;
        self.rows.push(row)?;
        self.note_last(alloc, number)?;
        Ok(number)
    }

    /// Notes the number of the last row. Half of the slots stay free.
    fn note_last(&mut self, alloc: Global, number: u32) -> Result<(), OutOfMemory>
        ensures { OnOk result (self.new.rows ≡ self.old.rows) }
    {
        if self.rows.len() > self.slots.len() / 2 {
            return self.note_all(alloc);
        }
        self.note(alloc, number)
    }

    /// Notes all numbers anew, in twice as many slots.
    fn note_all(&mut self, alloc: Global) -> Result<(), OutOfMemory>
        ensures { OnOk result (self.new.rows ≡ self.old.rows) }
    {
        let slots = self.slots.len().saturating_mul(2).max(LEAST_SLOTS);
        self.slots = vec![in alloc; FREE; slots]?;
        self.behind = BTreeMap::new(alloc);
        for n in 0..self.rows.len() {
            let number = kept(n)?;
            self.note(alloc, number)?;
        }
        Ok(())
    }

    /// Puts the number of a row into a slot, or behind the slots.
    fn note(&mut self, alloc: Global, number: u32) -> Result<(), OutOfMemory>
        ensures { OnOk result (self.new.rows ≡ self.old.rows) }
    {
        let Some(row) = self.rows.get(number as usize) else {
            return Ok(());
        };
        if put(&mut self.slots, hash_of(row), number) {
            return Ok(());
        }
        let row = Vec::from_slice(alloc, row)?;
        self.behind.insert(row, number)?;
        Ok(())
    }
}

/// Puts a number into the first of the slots for a hash that is free. Whether there was one.
fn put(slots: &mut Vec<u32>, hash: u64, number: u32) -> bool {
    for tried in 0..MOST_TRIES {
        let place = slot(hash, tried, slots.len());
        if let Some(found) = slots.get_mut(place) {
            if *found == FREE {
                *found = number;
                return true;
            }
        }
    }
    false
}

/// The slot for a hash that is tried after so many others.
fn slot(hash: u64, tried: usize, slots: usize) -> usize {
    (hash as usize).wrapping_add(tried) & slots.saturating_sub(1)
}

/// A number that is mostly another one for another row.
fn hash_of(row: &[u64]) -> u64 {
    let mut hash: u64 = 1;
    for word in row {
        hash = mixed(hash, *word);
    }
    hash >> 24
}

/// The hash of some words and one more.
pub(crate) fn mixed(hash: u64, word: u64) -> u64 {
    let more = (hash ^ word).wrapping_mul(0x9E37_79B9_7F4A_7C15);
    more ^ (more >> 29)
}

fn are_equal(xs: &[u64], ys: &[u64]) -> bool
    ensures { IsTrue result → xs.now ≡ ys.now }
{
    if xs.len() != ys.len() {
        return false;
    }
    for i in 0..xs.len() {
        if xs[i] != ys[i] {
            return false;
        }
    }
    true
}
