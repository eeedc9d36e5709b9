ghost use Rattle.std.specs.Prelude.{[]};
ghost use Rattle.trs_core.specs.View.{tree};
ghost use Rattle.rewrite_core.specs.Check.{AnswersBy};
ghost use Rattle.rewrite_core.specs.LoopConditions.{loop_conditions};
ghost use Rattle.cert_step.specs.Kind.{leaves};
ghost use Rattle.cert_step.specs.Subproblems.{problems_of};

use crate::Problem;
use crate::problem::no_problem;
use rewrite_core::{CheckFault, PathStep, loop_check};
use std::alloc::Global;
use trs_core::{Position, Term, Trs};

/// A loop. It shows that a system is endless, as each turn begins with an instance of the start,
/// and leaves no subproblem.
pub(crate) fn apply_loop(
    alloc: Global,
    trs: &Trs,
    start: &Term,
    path: &[PathStep],
    place: &Position,
) -> Result<Vec<Problem>, CheckFault>
    ensures { AnswersBy problems_of (leaves []
        (loop_conditions trs.now.rules (tree start.now) path.now place.now)) result }
{
    no_problem(alloc, loop_check(alloc, trs, start, path, place))
}
