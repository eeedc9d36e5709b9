//! Lists of the rules along paths.
ghost use Rattle.std.specs.Prelude.{◌≡◌, IfOk};
ghost use Rattle.label_find.specs.LabelRow.{rules_along};

use rewrite_core::PathStep;
use std::alloc::Global;
use trs_core::OutOfMemory;

/// The numbers of the rules along a path.
pub(crate) fn rules_along(alloc: Global, path: &[PathStep]) -> Result<Vec<u32>, OutOfMemory>
    ensures { IfOk result (λ rules. rules.items ≡ rules_along path.now) }
{
    let mut rules = Vec::with_capacity(alloc, path.len())?;
    for step in path {
        rules.push(step.rule)?;
    }
    Ok(rules)
}
