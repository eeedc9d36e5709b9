ghost use Rattle.std.specs.Prelude.{◌≡◌};
ghost use Rattle.cert_step.specs.ProofProblem.{problem_of};
ghost use Rattle.strategies.specs.Kinds.{strategies_for, word_of};

use cert_step::Problem;

/// A way to look for a step of a proof.
#[derive(Clone, Copy, Debug, PartialEq, Eq)]
pub enum Strategy {
    /// Dependency pairs.
    Dp,
    /// Components of the dependency graph.
    Graph,
    /// The subterm criterion.
    Subterm,
    /// Linear interpretations.
    Poly,
    /// Path orders with filters.
    Lpo,
    /// Knuth-Bendix orders.
    Kbo,
    /// Linear interpretations that make the usable rules weak.
    Usable,
    /// Loops by forward closures.
    Loop,
    /// Peaks closed by parallel steps.
    Parallel,
    /// Peaks joined strongly.
    Strong,
    /// Decreasing peaks by ranks of rules.
    Label,
    /// Joined peaks.
    Newman,
    /// Forks to terms that never meet.
    Fork,
    /// Unique normal forms by confluence.
    Confluence,
    /// Forks to different normal forms.
    Split,
}

impl Strategy {
    /// The strategy's name in reports.
    pub fn word(self) -> &'static str
        ensures { result.now ≡ word_of self }
    {
        match self {
            Strategy::Dp => "dp",
            Strategy::Graph => "graph",
            Strategy::Subterm => "subterm",
            Strategy::Poly => "poly",
            Strategy::Lpo => "lpo",
            Strategy::Kbo => "kbo",
            Strategy::Usable => "usable",
            Strategy::Loop => "loop",
            Strategy::Parallel => "parallel",
            Strategy::Strong => "strong",
            Strategy::Label => "label",
            Strategy::Newman => "newman",
            Strategy::Fork => "fork",
            Strategy::Confluence => "confluence",
            Strategy::Split => "split",
        }
    }
}

const DP: [Strategy; 1] = [Strategy::Dp];

/// The most strategies that a problem has: those on pairs.
pub const MOST_STRATEGIES: usize = 6;

const PAIRS: [Strategy; MOST_STRATEGIES] = [
    Strategy::Graph,
    Strategy::Subterm,
    Strategy::Poly,
    Strategy::Lpo,
    Strategy::Kbo,
    Strategy::Usable,
];

const LOOP: [Strategy; 1] = [Strategy::Loop];

const CR: [Strategy; 3] = [Strategy::Parallel, Strategy::Strong, Strategy::Label];

const NEWMAN: [Strategy; 1] = [Strategy::Newman];

const FORK: [Strategy; 1] = [Strategy::Fork];

const CONFLUENCE: [Strategy; 1] = [Strategy::Confluence];

const SPLIT: [Strategy; 1] = [Strategy::Split];

/// The strategies of a problem, in the order in which they are tried.
pub fn strategies_of(problem: &Problem) -> &'static [Strategy]
    ensures { result.now ≡ strategies_for (problem_of problem.now) }
{
    match problem {
        Problem::Sn => &DP,
        Problem::Dp(_) => &PAIRS,
        Problem::Loop => &LOOP,
        Problem::Cr => &CR,
        Problem::CrNewman => &NEWMAN,
        Problem::Fork => &FORK,
        Problem::Unr => &CONFLUENCE,
        Problem::UnrNewman => &CONFLUENCE,
        Problem::Split => &SPLIT,
    }
}
