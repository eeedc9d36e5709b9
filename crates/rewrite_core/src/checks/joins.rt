ghost use Rattle.std.specs.Prelude.{◌≡◌, IfOk};

use crate::PathStep;
use std::alloc::Global;
use std::marker::Model;
use trs_core::OutOfMemory;

/// Two paths, from the left side of a peak and from its right one, that are to lead to one term.
#[derive(Drop)]
pub struct Join {
    pub left: Vec<PathStep>,
    pub right: Vec<PathStep>,
}

impl Model for Join {
    ghost use Rattle.rewrite_core.specs.PathsOfJoin.{PathsOfJoin, join_code};

    ghost Value = { PathsOfJoin };

    ghost coded = { join_code };

    ghost view = { λ a. record { left = a.left.items; right = a.right.items } };
}

impl Join {
    pub fn copy(&self, alloc: Global) -> Result<Join, OutOfMemory>
        ensures { IfOk result (λ j. j ≡ self.now) }
    {
        Ok(Join {
            left: copy_path(alloc, &self.left)?,
            right: copy_path(alloc, &self.right)?,
        })
    }
}

/// A path with the same steps.
pub fn copy_path(alloc: Global, path: &[PathStep]) -> Result<Vec<PathStep>, OutOfMemory>
    ensures { IfOk result (λ steps. steps.items ≡ path.now) }
{
    let mut steps = Vec::with_capacity(alloc, path.len())?;
    for step in path {
        steps.push(step.copy(alloc)?)?;
    }
    Ok(steps)
}
