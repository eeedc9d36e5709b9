//! What is found: a fork.
ghost use Rattle.std.specs.Prelude.{◌≡◌, ◌∷◌, IfOk};
ghost use Rattle.trs_core.specs.View.{tree};
ghost use Rattle.conf_find.specs.Fork.{fork_of, fork_from};

use rewrite_core::{ForkTest, PathStep, Peak, Top};
use std::alloc::Global;
use trs_core::{OutOfMemory, Position, Term};

/// A term, two paths from it to terms that never meet again, and how that is seen.
#[derive(Drop)]
pub struct ForkFound {
    pub start: Term,
    pub left: Vec<PathStep>,
    pub right: Vec<PathStep>,
    pub test: ForkTest,
}

/// The fork from the top of a peak, which is the start, by its two steps and then these paths from its
/// two sides.
pub(crate) fn fork_from<T: Top>(
    alloc: Global,
    start: Term,
    peak: &Peak<T>,
    left: &[PathStep],
    right: &[PathStep],
    test: ForkTest,
) -> Result<ForkFound, OutOfMemory>
    requires { tree start ≡ peak.now.top }
    ensures { IfOk result (λ found. fork_of found ≡ fork_from peak.now left.now right.now test) }
{
    let inner = peak.place.copy(alloc)?;
    let outer = Position::new(alloc);
    Ok(ForkFound {
        start,
        left: behind(alloc, inner, peak.inner, left)?,
        right: behind(alloc, outer, peak.outer, right)?,
        test,
    })
}

/// The path with a step before it.
fn behind(
    alloc: Global,
    place: Position,
    rule: u32,
    path: &[PathStep],
) -> Result<Vec<PathStep>, OutOfMemory>
    ensures { IfOk result (λ longer. longer.items ≡ record { place = place; rule = rule } ∷ path.now) }
{
    let mut longer = Vec::new(alloc);
    longer.push(PathStep { place, rule })?;
    for step in path {
        longer.push(step.copy(alloc)?)?;
    }
    Ok(longer)
}
