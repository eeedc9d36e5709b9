ghost use Rattle.std.specs.Prelude.{◌≡◌, ◌↔◌, [], ◌∷◌, IfOk, IsTrue};
ghost use Rattle.cert_step.specs.ProofProblem.{problem_of, dp};
ghost use Rattle.cert_step.specs.OnPairs.{for_pairs};
ghost use Rattle.cert_step.specs.Subproblems.{GivesProblems, problems_of};

use rewrite_core::CheckFault;
use std::alloc::Global;
use trs_core::OutOfMemory;

/// What has to be shown of a system at a node of a proof. Contracts see it as a `ProofProblem`, by
/// `problem_of`.
#[derive(Debug, Drop)]
pub enum Problem {
    /// It terminates.
    Sn,
    /// The problem of these dependency pairs is finite. Pairs are numbered from 0 in the order of
    /// rules and, within a rule, of the right side's subterms in preorder; the numbers ascend.
    Dp(Vec<u32>),
    /// It is endless.
    Loop,
    /// It is confluent.
    Cr,
    /// It is confluent, to be shown by joined peaks and termination.
    CrNewman,
    /// It is forked: two terms that some term reaches are not joinable.
    Fork,
    /// It has unique normal forms.
    Unr,
    /// It has unique normal forms, to be shown by joined peaks and termination.
    UnrNewman,
    /// It is split: some term reaches two different normal forms.
    Split,
}

impl Problem {
    pub fn copy(&self, alloc: Global) -> Result<Problem, OutOfMemory>
        ensures { IfOk result (λ p. problem_of p ≡ problem_of self.now) }
    {
        Ok(match self {
            Problem::Sn => Problem::Sn,
            Problem::Dp(pairs) => Problem::Dp(pairs.to_vec(alloc)?),
            Problem::Loop => Problem::Loop,
            Problem::Cr => Problem::Cr,
            Problem::CrNewman => Problem::CrNewman,
            Problem::Fork => Problem::Fork,
            Problem::Unr => Problem::Unr,
            Problem::UnrNewman => Problem::UnrNewman,
            Problem::Split => Problem::Split,
        })
    }

    pub fn same(&self, other: &Problem) -> bool
        ensures { IsTrue result ↔ (problem_of self.now ≡ problem_of other.now) }
    {
        match self {
            Problem::Sn => matches!(other, Problem::Sn),
            Problem::Dp(pairs) => match other {
                Problem::Dp(others) => pairs == others,
                _ => false,
            },
            Problem::Loop => matches!(other, Problem::Loop),
            Problem::Cr => matches!(other, Problem::Cr),
            Problem::CrNewman => matches!(other, Problem::CrNewman),
            Problem::Fork => matches!(other, Problem::Fork),
            Problem::Unr => matches!(other, Problem::Unr),
            Problem::UnrNewman => matches!(other, Problem::UnrNewman),
            Problem::Split => matches!(other, Problem::Split),
        }
    }
}

impl Problem {
    /// The numbers of the pairs of a problem of pairs.
    pub(crate) fn pairs(&self) -> &[u32]
        requires { IsTrue (for_pairs (problem_of self.now)) }
        ensures { problem_of self.now ≡ dp result.now }
    {
        match self {
            Problem::Dp(pairs) => pairs,
            _ => unreachable!(),
        }
    }
}

/// What a step answers that leaves no subproblem where its conditions hold.
pub(crate) fn no_problem(
    alloc: Global,
    checked: Result<(), CheckFault>,
) -> Result<Vec<Problem>, CheckFault>
    ensures { GivesProblems (λ _. []) checked result }
{
    match checked {
        Ok(()) => Ok(Vec::new(alloc)),
        Err(fault) => Err(fault),
    }
}

/// What a step answers that leaves one subproblem where its conditions hold.
pub(crate) fn one_problem(
    alloc: Global,
    checked: Result<(), CheckFault>,
    problem: Problem,
) -> Result<Vec<Problem>, CheckFault>
    ensures { GivesProblems (λ _. problem_of problem ∷ []) checked result }
{
    match checked {
        Ok(()) => Ok(alone(alloc, problem)?),
        Err(fault) => Err(fault),
    }
}

/// One problem, as a list.
pub(crate) fn alone(alloc: Global, problem: Problem) -> Result<Vec<Problem>, OutOfMemory>
    ensures { IfOk result (λ problems. problems_of problems ≡ problem_of problem ∷ []) }
{
    let mut problems = Vec::new(alloc);
    problems.push(problem)?;
    Ok(problems)
}
