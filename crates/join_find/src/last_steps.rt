//! Parallel steps that are kept for later peaks with the same sides.
ghost use Rattle.std.specs.Prelude.{◌≡◌, List, IfSome, IfOk, OnOk};
ghost use Rattle.trs_defs.specs.Tree.{Tree};
ghost use Rattle.trs_defs.specs.System.{RewriteRule};
ghost use Rattle.join_find.specs.LastSteps.{CloseSides, AreLastSteps};

use rewrite_core::{PathStep, copy_path};
use std::alloc::Global;
use trs_core::OutOfMemory;

/// Of left sides with an id from here on no step is kept.
const MOST_KEPT: usize = 65_536;

/// Two sides, which are told by their ids. Where a parallel step between them was found more than
/// once, its steps are there.
#[derive(Drop)]
struct KeptStep {
    sides: (u32, u32),
    steps: Option<Vec<PathStep>>,
}

/// For left sides, by their ids, the last parallel step that was found from them. Rules with equal
/// right sides give peaks with the same two sides. Since the peaks of one outer rule stand together,
/// it is enough to keep the last one. Its steps are copied when it is found for the second time:
/// most sides come but once. So many sides may differ that large ids get none.
#[derive(Drop)]
pub(crate) struct LastSteps {
    by_left: Vec<Option<KeptStep>>,
}

impl LastSteps {
    /// No steps. It takes no memory.
    pub(crate) fn new(alloc: Global) -> LastSteps
        ensures { (rules : List RewriteRule) (pool : List Tree) → AreLastSteps rules pool result }
    {
        LastSteps {
            by_left: Vec::new(alloc),
        }
    }

    /// The parallel step between two sides, if it was the last from the left one.
    pub(crate) fn between(&self, sides: (u32, u32)) -> Option<&[PathStep]>
        ensures { (rules : List RewriteRule) (pool : List Tree) → AreLastSteps rules pool self.now
            → IfSome result (λ steps. CloseSides rules pool sides steps.now) }
    {
        let Some(Some(kept)) = self.by_left.get(sides.0 as usize) else {
            return None;
        };
        if kept.sides != sides {
            return None;
        }
        match &kept.steps {
            Some(steps) => Some(steps.as_slice()),
            None => None,
        }
    }

    /// Keeps the parallel step between two sides. Where they are not those of last time, only the
    /// sides are kept, and nothing where the id of the left one is large.
    pub(crate) fn keep(
        &mut self,
        alloc: Global,
        sides: (u32, u32),
        steps: &[PathStep],
    ) -> Result<(), OutOfMemory>
        ensures { (rules : List RewriteRule) (pool : List Tree) → AreLastSteps rules pool self.old
            → CloseSides rules pool sides steps.now
            → OnOk result (AreLastSteps rules pool self.new) }
    {
        let left = sides.0 as usize;
        if left >= MOST_KEPT {
            return Ok(());
        }
        while self.by_left.len() <= left {
            self.by_left.push(None)?;
        }
        let kept = copy_if(alloc, steps, self.were_last(sides))?;
        self.by_left[left] = Some(KeptStep { sides, steps: kept });
        Ok(())
    }

    /// Whether the sides are the last ones from the left one.
    fn were_last(&self, sides: (u32, u32)) -> bool {
        match self.by_left.get(sides.0 as usize) {
            Some(Some(kept)) => kept.sides == sides,
            _ => false,
        }
    }
}

/// A copy of the steps, if it is wanted.
fn copy_if(
    alloc: Global,
    steps: &[PathStep],
    wanted: bool,
) -> Result<Option<Vec<PathStep>>, OutOfMemory>
    ensures { IfOk result (λ copy. IfSome copy (λ kept. kept.items ≡ steps.now)) }
{
    if !wanted {
        return Ok(None);
    }
    Ok(Some(copy_path(alloc, steps)?))
}
