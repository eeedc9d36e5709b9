//! How the constraints of a space are tested.
ghost use Rattle.std.specs.Prelude.{◌≡◌, ◌<◌, ◌↔◌, All, IsTrue, IfOk, OnOk, true};
ghost use Rattle.assign_search.specs.Puzzle.{Covers};

use crate::memory::OutOfMemory;
use crate::space::Space;
use std::alloc::Global;

/// Tests the constraints of a space. It may keep what it finds out, for later tests.
pub trait Tester<S: Space> {
    /// What it keeps is true of the space.
    ghost serves: { Self → S → Type 0 };

    /// Whether constraint `c` is true of the values, which cover the slots that it uses.
    fn holds(
        &mut self,
        alloc: Global,
        space: &S,
        c: u32,
        values: &[u32],
    ) -> Result<bool, OutOfMemory>
        requires serves { serves self.old space.now }
        requires constraint { c < (S.puzzle space.now).constraints }
        requires covers { Covers (S.puzzle space.now) c values.now }
        ensures truth { IfOk result (λ truth. truth ≡ (S.puzzle space.now).truth c values.now) }
        ensures serves { OnOk result (serves self.new space.now) };

    /// Whether all of these constraints are.
    fn all_hold(
        &mut self,
        alloc: Global,
        space: &S,
        constraints: &[u32],
        values: &[u32],
    ) -> Result<bool, OutOfMemory>
        requires serves { serves self.old space.now }
        requires constraints { All (λ c. c < (S.puzzle space.now).constraints) constraints.now }
        requires covers { All (λ c. Covers (S.puzzle space.now) c values.now) constraints.now }
        ensures truth { IfOk result (λ all. IsTrue all
            ↔ All (λ c. (S.puzzle space.now).truth c values.now ≡ true) constraints.now) }
        ensures serves { OnOk result (serves self.new space.now) }
    {
        for c in constraints {
            if !self.holds(alloc, space, *c, values)? {
                return Ok(false);
            }
        }
        Ok(true)
    }
}

/// It tests each constraint anew.
#[derive(Drop)]
pub struct Anew;

impl<S: Space> Tester<S> for Anew {
    ghost serves = { λ _ _. Unit {0} };

    fn holds(
        &mut self,
        alloc: Global,
        space: &S,
        c: u32,
        values: &[u32],
    ) -> Result<bool, OutOfMemory> {
        space.holds(alloc, c, values)
    }
}
