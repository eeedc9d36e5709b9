ghost use Rattle.std.specs.Prelude.{[]};
ghost use Rattle.rewrite_core.specs.Check.{AnswersBy};
ghost use Rattle.rule_label.specs.closed_pairs.ParallelClosed.{paths_of, parallel_conditions};
ghost use Rattle.cert_step.specs.Kind.{leaves};
ghost use Rattle.cert_step.specs.Subproblems.{problems_of};

use crate::Problem;
use crate::problem::no_problem;
use rewrite_core::{CheckFault, PathStep};
use rule_label::parallel_closed_check;
use std::alloc::Global;
use trs_core::Trs;

/// Peaks that are closed by parallel steps. They show that a system is confluent, and leave no
/// subproblem.
pub(crate) fn apply_parallel(
    alloc: Global,
    trs: &Trs,
    paths: &[Vec<PathStep>],
) -> Result<Vec<Problem>, CheckFault>
    ensures { AnswersBy problems_of
        (leaves [] (parallel_conditions trs.now (paths_of paths.now))) result }
{
    no_problem(alloc, parallel_closed_check(alloc, trs, paths))
}
