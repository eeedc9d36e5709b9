ghost use Rattle.std.specs.Prelude.{◌≡◌, ◌↔◌, ◌++◌, [], ◌∷◌, IsTrue, IfOk};
ghost use Rattle.term_pool.specs.Paths.{fault_at};

use crate::StepFault;
use std::alloc::Global;
use std::marker::Model;
use trs_core::{OutOfMemory, Position};

/// A step of a path: a position, and the number of a rule, counted from 0.
#[derive(Drop)]
pub struct PathStep {
    pub place: Position,
    pub rule: u32,
}

impl Model for PathStep {
    ghost use Rattle.trs_defs.specs.Path.{PlacedRule, placed_code};

    ghost Value = { PlacedRule };

    ghost coded = { placed_code };

    ghost view = { λ a. record { place = a.place; rule = a.rule } };
}

impl PathStep {
    pub fn copy(&self, alloc: Global) -> Result<PathStep, OutOfMemory>
        ensures { IfOk result (λ s. s ≡ self.now) }
    {
        // Most steps of a long path are at the root.
        let place = if self.place.places().is_empty() {
            Position::new(alloc)
        } else {
            self.place.copy(alloc)?
        };
        Ok(PathStep {
            place,
            rule: self.rule,
        })
    }

    /// Whether both are by one rule at one place.
    pub(crate) fn is_same(&self, other: &PathStep) -> bool
        ensures { IsTrue result ↔ (self.now ≡ other.now) }
    {
        self.rule == other.rule && self.place.places() == other.place.places()
    }
}

/// Why a path is not followed to its end.
#[derive(Clone, Copy, Debug, PartialEq, Eq)]
pub enum PathFault {
    /// The number of the first step that is refused, counted from 0, and why it is. That is never
    /// `StepFault::OutOfMemory`.
    At(u64, StepFault),
    /// There was no memory left.
    OutOfMemory,
}

impl PathFault {
    /// A fault of step number `k`.
    pub(crate) fn at_step(k: u64, fault: StepFault) -> PathFault
        ensures { result ≡ fault_at k fault }
    {
        match fault {
            StepFault::OutOfMemory => PathFault::OutOfMemory,
            _ => PathFault::At(k, fault),
        }
    }
}

impl From<OutOfMemory> for PathFault {
    ghost use Rattle.std.specs.Prelude.{◌≡◌};
    ghost use Rattle.term_pool.specs.declared.paths.PathFault.TheVariants as fault;

    ghost from_gives = { λ _ e. e ≡ fault.OutOfMemory };

    fn from(_e: OutOfMemory) -> PathFault {
        PathFault::OutOfMemory
    }
}

/// The path with one more step.
pub fn one_longer(
    alloc: Global,
    path: &[PathStep],
    step: &PathStep,
) -> Result<Vec<PathStep>, OutOfMemory>
    ensures { IfOk result (λ longer. longer.items ≡ path.now ++ step.now ∷ []) }
{
    let mut longer = copy_path(alloc, path)?;
    longer.push(step.copy(alloc)?)?;
    Ok(longer)
}

/// The same path.
pub(crate) fn copy_path(alloc: Global, path: &[PathStep]) -> Result<Vec<PathStep>, OutOfMemory>
    ensures { IfOk result (λ copy. copy.items ≡ path.now) }
{
    let mut copy = Vec::with_capacity(alloc, path.len())?;
    for step in path {
        copy.push(step.copy(alloc)?)?;
    }
    Ok(copy)
}
