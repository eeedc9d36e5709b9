ghost use Rattle.std.specs.Prelude.{◌↔◌, IsTrue, IfOk};
ghost use Rattle.trs_defs.specs.Path.{Follows};
ghost use Rattle.trs_core.specs.View.{tree};

use rewrite_core::{PathFault, PathStep, run_path};
use std::alloc::Global;
use trs_core::{OutOfMemory, Term, Trs};

/// Whether the path leads from one term to another, within the limits on computed terms.
pub(crate) fn leads(
    alloc: Global,
    trs: &Trs,
    from: &Term,
    to: &Term,
    path: &[PathStep],
) -> Result<bool, OutOfMemory>
    ensures { IfOk result (λ yes. IsTrue yes
        ↔ Follows trs.now.rules path.now (tree from.now) (tree to.now)) }
{
    match run_path(alloc, trs, from, path) {
        Err(PathFault::OutOfMemory) => Err(OutOfMemory),
        Err(PathFault::At(_, _)) => Ok(false),
        Ok(end) => Ok(end.same(to)),
    }
}
