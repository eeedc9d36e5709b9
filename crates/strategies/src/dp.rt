//! The strategy dp.
ghost use Rattle.std.specs.Prelude.{◌≡◌, ℕ, IfOk};
ghost use Rattle.cert_step.specs.ProofProblem.{problem_of, sn};
ghost use Rattle.strategies.specs.Truth.{AreTrueFindings};

use crate::found::leaving;
use crate::{Findings, Strategy};
use cert_step::{Prepared, Problem, Step};
use std::alloc::Global;
use trs_core::{OutOfMemory, Trs};

/// The step to the problem of all dependency pairs, which is always found. (Arts and Giesl, 2000.)
pub(crate) fn search_dp(
    alloc: Global,
    trs: &Trs,
    prepared: &mut Prepared,
    problem: &Problem,
) -> Result<Findings, OutOfMemory>
    requires prepared { prepared.old ≡ trs.now }
    requires problem { problem_of problem.now ≡ sn }
    ensures answer { IfOk result (λ findings. (budget : ℕ) →
        AreTrueFindings trs.now budget Strategy.Dp (problem_of problem.now) findings) }
    ensures prepared { prepared.new ≡ trs.now }
{
    leaving(alloc, prepared, problem, Step::Dp)
}
