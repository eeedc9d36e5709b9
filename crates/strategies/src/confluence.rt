//! The strategy confluence.
ghost use Rattle.std.specs.Prelude.{◌≡◌, ◌⊎◌, ℕ, IfOk};
ghost use Rattle.cert_step.specs.ProofProblem.{problem_of, unr, unr_newman};
ghost use Rattle.strategies.specs.Truth.{AreTrueFindings};

use crate::found::leaving;
use crate::{Findings, Strategy};
use cert_step::{Prepared, Problem, Step};
use std::alloc::Global;
use trs_core::{OutOfMemory, Trs};

/// The step to confluence, which is always found.
pub(crate) fn search_confluence(
    alloc: Global,
    trs: &Trs,
    prepared: &mut Prepared,
    problem: &Problem,
) -> Result<Findings, OutOfMemory>
    requires prepared { prepared.old ≡ trs.now }
    requires problem { (problem_of problem.now ≡ unr) ⊎ (problem_of problem.now ≡ unr_newman) }
    ensures answer { IfOk result (λ findings. (budget : ℕ) → AreTrueFindings
        trs.now budget Strategy.Confluence (problem_of problem.now) findings) }
    ensures prepared { prepared.new ≡ trs.now }
{
    leaving(alloc, prepared, problem, Step::Confluence)
}
