ghost use Rattle.std.specs.Prelude.{[]};
ghost use Rattle.rewrite_core.specs.Check.{AnswersBy};
ghost use Rattle.rule_label.specs.Labelled.{label_conditions};
ghost use Rattle.cert_step.specs.Kind.{leaves};
ghost use Rattle.cert_step.specs.Subproblems.{problems_of};

use crate::Problem;
use crate::problem::no_problem;
use rewrite_core::{CheckFault, Join};
use rule_label::labelled_check;
use std::alloc::Global;
use trs_core::Trs;

/// Peaks that are decreasing by the ranks of rules. They show that a system is confluent, and leave
/// no subproblem.
pub(crate) fn apply_label(
    alloc: Global,
    trs: &Trs,
    ranks: &[u64],
    joins: &[Join],
) -> Result<Vec<Problem>, CheckFault>
    ensures { AnswersBy problems_of
        (leaves [] (label_conditions trs.now ranks.now joins.now)) result }
{
    no_problem(alloc, labelled_check(alloc, trs, ranks, joins))
}
