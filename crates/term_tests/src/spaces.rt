//! Small spaces.
ghost use Rattle.term_tests.specs.Puzzles.{pair_puzzle, pair_lawful, deep_puzzle, deep_lawful};

use assign_search::{OutOfMemory, Space};
use std::alloc::Global;

/// Two slots, and two constraints: slot 0 is `first`, slot 1 is `second`.
#[derive(Drop)]
pub struct Pair {
    pub first: u32,
    pub second: u32,
    pub sizes: (u32, u32),
}

impl Space for Pair {
    ghost puzzle = { λ x. pair_puzzle x.first x.second x.sizes.0 x.sizes.1 };

    ghost lawful = { λ x. pair_lawful x.first x.second x.sizes.0 x.sizes.1 };

    fn slots(&self) -> u32 {
        2
    }

    fn domain(&self, slot: u32) -> u32 {
        if slot == 0 {
            self.sizes.0
        } else {
            self.sizes.1
        }
    }

    fn constraints(&self) -> u32 {
        2
    }

    fn uses(&self, c: u32, slot: u32) -> bool {
        c == slot
    }

    fn holds(&self, _alloc: Global, c: u32, values: &[u32]) -> Result<bool, OutOfMemory> {
        let want = if c == 0 { self.first } else { self.second };
        Ok(values[c as usize] == want)
    }
}

/// Slots with two values each, and one constraint, on the last slot; `None` is want of memory.
#[derive(Drop)]
pub struct Deep {
    pub slots: u32,
    pub truth: Option<bool>,
}

impl Space for Deep {
    ghost puzzle = { λ x. deep_puzzle x.slots x.truth };

    ghost lawful = { λ x. deep_lawful x.slots x.truth };

    fn slots(&self) -> u32 {
        self.slots
    }

    fn domain(&self, _slot: u32) -> u32 {
        2
    }

    fn constraints(&self) -> u32 {
        1
    }

    fn uses(&self, _c: u32, slot: u32) -> bool {
        let slots = self.slots;
        slot + 1 == slots
    }

    fn holds(&self, _alloc: Global, _c: u32, _values: &[u32]) -> Result<bool, OutOfMemory> {
        self.truth.ok_or(OutOfMemory)
    }
}
