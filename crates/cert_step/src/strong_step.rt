ghost use Rattle.std.specs.Prelude.{[]};
ghost use Rattle.rewrite_core.specs.Check.{AnswersBy};
ghost use Rattle.rule_label.specs.closed_pairs.StronglyClosed.{strong_conditions};
ghost use Rattle.cert_step.specs.Kind.{leaves};
ghost use Rattle.cert_step.specs.Subproblems.{problems_of};

use crate::Problem;
use crate::problem::no_problem;
use rewrite_core::CheckFault;
use rule_label::{Four, strongly_closed_check};
use std::alloc::Global;
use trs_core::Trs;

/// Peaks that are joined strongly. They show that a system is confluent, and leave no subproblem.
pub(crate) fn apply_strong(
    alloc: Global,
    trs: &Trs,
    fours: &[Four],
) -> Result<Vec<Problem>, CheckFault>
    ensures { AnswersBy problems_of (leaves [] (strong_conditions trs.now fours.now)) result }
{
    no_problem(alloc, strongly_closed_check(alloc, trs, fours))
}
