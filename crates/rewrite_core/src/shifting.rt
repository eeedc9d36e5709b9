ghost use Rattle.std.specs.Prelude.{◌≡◌, ◌++◌, All, ◌<◌, IfOk, OnOk};
ghost use Rattle.rewrite_core.specs.ShiftedPath.{shifted_step, shifted_path};

use crate::PathStep;
use std::alloc::Global;
use trs_core::{OutOfMemory, Position};

/// The steps of a path in a term that stands at a position, as steps of the whole term: the
/// position is put in front of each place.
pub fn shift_path(
    alloc: Global,
    path: &[PathStep],
    by: &Position,
) -> Result<Vec<PathStep>, OutOfMemory>
    ensures { IfOk result (λ steps. steps.items ≡ shifted_path by.now path.now) }
{
    let mut steps = Vec::with_capacity(alloc, path.len())?;
    push_shifted(alloc, &mut steps, path, by)?;
    Ok(steps)
}

/// Appends the steps of a path, with a position in front of each place.
pub fn push_shifted(
    alloc: Global,
    steps: &mut Vec<PathStep>,
    path: &[PathStep],
    by: &Position,
) -> Result<(), OutOfMemory>
    ensures { OnOk result (steps.new.items ≡ steps.old.items ++ shifted_path by.now path.now) }
{
    for step in path {
        steps.push(shift_step(alloc, step, by)?)?;
    }
    Ok(())
}

fn shift_step(alloc: Global, step: &PathStep, by: &Position) -> Result<PathStep, OutOfMemory>
    ensures { IfOk result (λ s. s ≡ shifted_step by.now step.now) }
{
    if by.places().is_empty() {
        return step.copy(alloc);
    }
    let mut place = by.copy(alloc)?;
    push_places(&mut place, step.place.places())?;
    Ok(PathStep {
        place,
        rule: step.rule,
    })
}

/// Goes on to further places.
fn push_places(position: &mut Position, places: &[u8]) -> Result<(), OutOfMemory>
    requires { All (λ place. 0 < place) places.now }
    ensures { OnOk result (position.new ≡ position.old ++ places.now) }
{
    for place in places {
        position.push(*place)?;
    }
    Ok(())
}
