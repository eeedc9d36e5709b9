ghost use Rattle.std.specs.Prelude.{[], ◌∷◌};
ghost use Rattle.rewrite_core.specs.Check.{AnswersBy};
ghost use Rattle.rule_label.specs.closed_pairs.Joined.{newman_conditions};
ghost use Rattle.cert_step.specs.Kind.{leaves};
ghost use Rattle.cert_step.specs.ProofProblem.{sn};
ghost use Rattle.cert_step.specs.Subproblems.{problems_of};

use crate::Problem;
use crate::problem::one_problem;
use rewrite_core::{CheckFault, Join};
use rule_label::newman_check;
use std::alloc::Global;
use trs_core::Trs;

/// Joined peaks. They show that a system is confluent that terminates, which is left to show.
pub(crate) fn apply_newman(
    alloc: Global,
    trs: &Trs,
    joins: &[Join],
) -> Result<Vec<Problem>, CheckFault>
    ensures { AnswersBy problems_of
        (leaves (sn ∷ []) (newman_conditions trs.now joins.now)) result }
{
    one_problem(alloc, newman_check(alloc, trs, joins), Problem::Sn)
}
