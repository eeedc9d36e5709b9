ghost use Rattle.std.specs.Prelude.{◌≡◌, ◌<◌, ◌≤◌, ℕ, [], OnOk, length};
ghost use Rattle.completion.specs.PassedIds.{mark_of, IsMarked};

use std::alloc::Global;
use std::marker::Model;
use trs_core::OutOfMemory;

/// How many rules, from the first one on, each id was passed by: its term has no redex of them.
/// Contracts see the numbers, by the ids.
#[derive(Drop)]
pub(crate) struct PassedIds {
    counts: Vec<u32>,
}

impl Model for PassedIds {
    ghost use Rattle.std.specs.Prelude.{ℕ, List};

    ghost Value = { List ℕ };

    ghost view = { λ a. a.counts.items };
}

impl PassedIds {
    /// No id was passed. It takes no memory.
    pub(crate) fn new(alloc: Global) -> PassedIds
        ensures { result ≡ [] }
    {
        PassedIds {
            counts: Vec::new(alloc),
        }
    }

    /// How many rules the id was passed by.
    pub(crate) fn count(&self, id: u32) -> u32
        ensures { result ≡ mark_of self.now id }
    {
        match self.counts.get(id as usize) {
            Some(count) => *count,
            None => 0,
        }
    }

    /// The id was passed by so many rules.
    pub(crate) fn pass(&mut self, id: u32, count: u32) -> Result<(), OutOfMemory>
        ensures { OnOk result (IsMarked id count self.old self.new) }
    {
        self.make_place(id)?;
        self.counts[id as usize] = count;
        Ok(())
    }

    /// Makes a place for an id that has none.
    fn make_place(&mut self, id: u32) -> Result<(), OutOfMemory>
        ensures there { OnOk result (id < length self.new) }
        ensures same { OnOk result ((v : ℕ) → mark_of self.new v ≡ mark_of self.old v) }
    {
        let place = id as usize;
        if place < self.counts.len() {
            return Ok(());
        }
        self.counts.resize(place + 1, 0)?;
        Ok(())
    }

    /// Forgets the ids from the mark on.
    pub(crate) fn forget_from(&mut self, mark: u32)
        ensures below { (v : ℕ) → v < mark → mark_of self.new v ≡ mark_of self.old v }
        ensures above { (v : ℕ) → mark ≤ v → mark_of self.new v ≡ 0 }
    {
        self.counts.truncate(mark as usize);
    }
}
