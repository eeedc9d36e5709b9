//! New numbers for variables.
ghost use Rattle.crit_pairs.specs.Slots.{ArePlaced, named_variable};

use crate::slots::{note_place, slot};
use std::alloc::Global;
use trs_core::OutOfMemory;

/// Variables by their new numbers, in the order in which they are met. They are found by their slots.
#[derive(Drop)]
pub(crate) struct Names {
    pub order: Vec<u32>,
    /// At the slot of each name stands its number. At the other slots stands whatever names before
    /// these left there, so that nothing has to be cleared.
    places: Vec<usize>,
    ghost placed: { ArePlaced named_variable places.items order.items },
}

impl Names {
    ghost use Rattle.std.specs.Prelude.{◌≡◌, ◌++◌, [], ◌∷◌, ℕ, Some, IfSome, IfNone, OnOk, slice_get};

    /// No variable has a number yet. It takes no memory.
    pub fn none(alloc: Global) -> Names
        ensures { result.order.items ≡ [] }
    {
        Names {
            order: Vec::new(alloc),
            places: Vec::new(alloc),
        }
    }

    /// Takes all numbers back. The memory is used anew.
    pub fn clear(&mut self)
        ensures { self.new.order.items ≡ [] }
    {
        self.order.clear();
    }

    /// The number of a variable.
    #[inline(always)]
    pub fn place(&self, v: u32) -> Option<usize>
        ensures some { IfSome result (λ k. slice_get self.now.order.items k ≡ Some v) }
        ensures none { IfNone result ((k : ℕ) → slice_get self.now.order.items k ≡ Some v → ⊥) }
    {
        let place = *self.places.get(slot(v))?;
        let name = self.order.get(place)?;
        if *name == v { Some(place) } else { None }
    }

    /// Gives the next number to a variable that has none.
    pub fn add(&mut self, v: u32) -> Result<(), OutOfMemory>
        requires { (k : ℕ) → slice_get self.old.order.items k ≡ Some v → ⊥ }
        ensures { OnOk result (self.new.order.items ≡ self.old.order.items ++ v ∷ []) }
    {
        note_place(&mut self.places, v, self.order.len())?;
        self.order.push(v)?;
        Ok(())
    }
}
