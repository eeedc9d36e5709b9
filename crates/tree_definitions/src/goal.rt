ghost use Rattle.std.specs.Prelude.{◌≡◌};
ghost use Rattle.strategies.specs.cert_step.ProofProblem.{problem_of};
ghost use Rattle.tree_definitions.specs.Goals.{goal_root, goal_claim, goal_word};

use strategies::{Claim, Problem};

/// What is to be shown of a system, and by which way.
#[derive(Clone, Copy, Debug, PartialEq, Eq)]
pub enum Goal {
    Terminating,
    Nonterminating,
    Confluent,
    /// By joined peaks and termination.
    ConfluentNewman,
    Nonconfluent,
    Unique,
    /// By confluence by joined peaks and termination.
    UniqueNewman,
    Nonunique,
}

impl Goal {
    /// The problem with which the goal begins.
    pub fn root(self) -> Problem
        ensures { problem_of result ≡ goal_root self }
    {
        match self {
            Goal::Terminating => Problem::Sn,
            Goal::Nonterminating => Problem::Loop,
            Goal::Confluent => Problem::Cr,
            Goal::ConfluentNewman => Problem::CrNewman,
            Goal::Nonconfluent => Problem::Fork,
            Goal::Unique => Problem::Unr,
            Goal::UniqueNewman => Problem::UnrNewman,
            Goal::Nonunique => Problem::Split,
        }
    }

    /// What the goal claims.
    pub fn claim(self) -> Claim
        ensures { result ≡ goal_claim self }
    {
        match self {
            Goal::Terminating => Claim::Terminating,
            Goal::Nonterminating => Claim::Nonterminating,
            Goal::Confluent | Goal::ConfluentNewman => Claim::Confluent,
            Goal::Nonconfluent => Claim::Nonconfluent,
            Goal::Unique | Goal::UniqueNewman => Claim::Unique,
            Goal::Nonunique => Claim::Nonunique,
        }
    }

    /// The goal's name in reports.
    pub fn word(self) -> &'static str
        ensures { result.now ≡ goal_word self }
    {
        match self {
            Goal::Terminating => "terminating",
            Goal::Nonterminating => "nonterminating",
            Goal::Confluent => "confluent",
            Goal::ConfluentNewman => "confluent-newman",
            Goal::Nonconfluent => "nonconfluent",
            Goal::Unique => "unique",
            Goal::UniqueNewman => "unique-newman",
            Goal::Nonunique => "nonunique",
        }
    }
}
