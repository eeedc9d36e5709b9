ghost use Rattle.std.specs.Prelude.{[], ◌∷◌};
ghost use Rattle.pair_theory.specs.DependencyPair.{dependency_pairs};
ghost use Rattle.rewrite_core.specs.Check.{AnswersBy, Returns};
ghost use Rattle.dp_graph.specs.dp_core.Numbered.{numbers_from};
ghost use Rattle.cert_step.specs.ProofProblem.{dp};
ghost use Rattle.cert_step.specs.Subproblems.{problems_of};

use crate::Problem;
use crate::problem::alone;
use dp_graph::{dependency_pairs, pair_numbers};
use rewrite_core::CheckFault;
use std::alloc::Global;
use trs_core::Trs;

/// Dependency pairs. A system terminates if the problem of all its pairs is finite, which is left
/// to show. (Arts and Giesl, 2000.)
pub(crate) fn apply_dp(alloc: Global, trs: &Trs) -> Result<Vec<Problem>, CheckFault>
    ensures { AnswersBy problems_of
        (Returns (dp (numbers_from 0 (dependency_pairs trs.now.rules)) ∷ [])) result }
{
    let all = dependency_pairs(alloc, trs)?;
    let numbers = pair_numbers(alloc, trs, &all)?;
    Ok(alone(alloc, Problem::Dp(numbers))?)
}
