ghost use Rattle.std.specs.Prelude.{◌≡◌, [], IfOk};
ghost use Rattle.conf_find.specs.Fork.{fork_of};
ghost use Rattle.cert_step.specs.ProofProblem.{problem_of, IsWellMadeProblem};
ghost use Rattle.cert_step.specs.ProofStep.{step_of, IsWellMade};
ghost use Rattle.strategies.specs.Conditions.{fork_step};
ghost use Rattle.cert_step.specs.Applies.{DoesApply};
ghost use Rattle.strategies.specs.Endings.{AreTrueIfFound};
ghost use Rattle.strategies.specs.Runs.{found};
ghost use Rattle.strategies.specs.Truth.{found_of};

use crate::Findings;
use cert_step::{Prepared, Problem, Step};
use conf_find::ForkFound;
use std::alloc::Global;
use trs_core::OutOfMemory;

/// A found step, with the problems that it leaves.
pub(crate) fn leaving(
    alloc: Global,
    prepared: &mut Prepared,
    problem: &Problem,
    step: Step,
) -> Result<Findings, OutOfMemory>
    requires problem { IsWellMadeProblem prepared.old (problem_of problem.now) }
    requires step { IsWellMade prepared.old (step_of step) }
    requires applies { DoesApply prepared.old (problem_of problem.now) (step_of step) }
    ensures is_true { IfOk result
        (AreTrueIfFound prepared.old (problem_of problem.now) (step_of step)) }
    ensures system { prepared.new ≡ prepared.old }
{
    let left = prepared.apply_known(alloc, problem, &step)?;
    Ok(Findings::Found(step, left))
}

/// A found step that leaves no problem.
pub(crate) fn closing(alloc: Global, step: Step) -> Findings
    ensures { found_of result ≡ found (step_of step) [] }
{
    Findings::Found(step, Vec::new(alloc))
}

/// The step by a fork.
pub(crate) fn fork_step(fork: ForkFound) -> Step
    ensures { step_of result ≡ fork_step (fork_of fork) }
{
    Step::Fork {
        start: fork.start,
        left: fork.left,
        right: fork.right,
        test: fork.test,
    }
}
