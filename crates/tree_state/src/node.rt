ghost use Rattle.std.specs.Prelude.{◌≡◌, List, None};
ghost use Rattle.tree_definitions.specs.cert_step.ProofProblem.{problem_of};
ghost use Rattle.tree_definitions.specs.History.{HistoryEntry};
ghost use Rattle.tree_definitions.specs.States.{new_node};
ghost use Rattle.tree_state.specs.Seen.{node_of};

use tree_definitions::{MOST_STRATEGIES, Mark, Problem};

/// The entry of the history whose step decided a node, and the node's children: so many, from the
/// first on.
#[derive(Clone, Copy, Debug)]
pub(crate) struct Decision {
    pub(crate) entry: usize,
    pub(crate) first: usize,
    pub(crate) count: usize,
}

/// A node of the tree. It has one mark for each strategy of its problem; the marks behind those
/// mean nothing. So a node takes no memory beside its problem's.
#[derive(Drop)]
pub(crate) struct Node {
    pub(crate) goal: u32,
    pub(crate) problem: Problem,
    pub(crate) decision: Option<Decision>,
    pub(crate) marks: [Mark; MOST_STRATEGIES],
}

impl Node {
    /// An open node, of which no strategy was tried.
    pub(crate) fn new(goal: u32, problem: Problem) -> Node
        ensures open { result.decision ≡ None }
        ensures seen { (history : List HistoryEntry)
            → node_of history result ≡ new_node goal (problem_of problem) }
    {
        Node {
            goal,
            problem,
            decision: None,
            marks: [Mark::Idle; MOST_STRATEGIES],
        }
    }
}
