ghost use Rattle.std.specs.Prelude.{◌≡◌, ◌+◌, ◌-◌, ◌<◌, ◌≤◌, ℕ, List, None, Some, ◌++◌, length};
ghost use Rattle.std.specs.Prelude.{vec_len, map, position, slice_get, slice_set};
ghost use Rattle.std.specs.Vec.{vec_capacity};
ghost use Rattle.tree_definitions.specs.cert_step.ProofProblem.{problem_of};
ghost use Rattle.tree_definitions.specs.strategies.Kinds.{strategies_for};
ghost use Rattle.tree_definitions.specs.History.{HistoryEntry};
ghost use Rattle.tree_state.specs.Seen.{node_of, decided_of, AreWithin};
ghost use Rattle.tree_definitions.specs.States.{TreeNode, marked, new_node};
ghost use Rattle.tree_definitions.specs.Marks.{is_idle};
ghost use Rattle.tree_state.specs.Parts.{all_failed};

use crate::node::{Decision, Node};
use tree_definitions::{MOST_STRATEGIES, Mark, Problem, strategies_of};

// The strategy at a place of node number n has this mark.
pub(crate) fn set_mark(nodes: &mut Vec<Node>, n: usize, place: usize, mark: Mark)
    requires node { n < length nodes.old.items }
    requires place { place < MOST_STRATEGIES }
    ensures room { vec_capacity nodes.new - vec_len nodes.new
        ≡ vec_capacity nodes.old - vec_len nodes.old }
    ensures within { (bound : ℕ) → AreWithin bound nodes.old.items
        → AreWithin bound nodes.new.items }
    ensures nodes { (history : List HistoryEntry) (node : TreeNode)
        → slice_get (map (node_of history) nodes.old.items) n ≡ Some node
        → place < length node.marks → map (node_of history) nodes.new.items
        ≡ slice_set (map (node_of history) nodes.old.items) n (marked node place mark) }
{
    nodes[n].marks[place] = mark;
}

// The problems become the next nodes, of this goal.
pub(crate) fn append_nodes(nodes: &mut Vec<Node>, goal: u32, problems: Vec<Problem>)
    requires { length problems.items ≤ vec_capacity nodes.old - vec_len nodes.old }
    ensures within { (bound : ℕ) → AreWithin bound nodes.old.items
        → AreWithin bound nodes.new.items }
    ensures nodes { (history : List HistoryEntry) → map (node_of history) nodes.new.items
        ≡ map (node_of history) nodes.old.items
        ++ map (new_node goal) (map problem_of problems.items) }
{
    for problem in problems {
        nodes.push_reserved(Node::new(goal, problem));
    }
}

// Node number n is decided.
pub(crate) fn decide_node(nodes: &mut Vec<Node>, n: usize, decision: Decision)
    requires { n < length nodes.old.items }
    ensures room { vec_capacity nodes.new - vec_len nodes.new
        ≡ vec_capacity nodes.old - vec_len nodes.old }
    ensures within { (bound : ℕ) → AreWithin bound nodes.old.items → decision.entry < bound
        → AreWithin bound nodes.new.items }
    ensures nodes { (history : List HistoryEntry) (node : TreeNode)
        → slice_get (map (node_of history) nodes.old.items) n ≡ Some node
        → map (node_of history) nodes.new.items
        ≡ slice_set (map (node_of history) nodes.old.items) n
        (record node { decision = Some (decided_of history decision) }) }
{
    nodes[n].decision = Some(decision);
}

// Whether each strategy of the node has failed.
pub(crate) fn has_failed(node: &Node) -> bool
    ensures { (history : List HistoryEntry) → result ≡ all_failed (node_of history node.now).marks }
{
    are_failed(marks_of(node))
}

fn are_failed(marks: &[Mark]) -> bool
    ensures { result ≡ all_failed marks.now }
{
    marks.iter().all(|mark| mark.has_failed())
}

pub(crate) fn first_idle(marks: &[Mark]) -> Option<usize>
    ensures { result ≡ position is_idle marks.now }
{
    marks.iter().position(|mark| mark.is_idle())
}

// The marks of the node's strategies.
pub(crate) fn marks_of(node: &Node) -> &[Mark]
    ensures marks { (history : List HistoryEntry) → result.now ≡ (node_of history node.now).marks }
    ensures length { length result.now ≡ length (strategies_for (problem_of node.now.problem)) }
{
    let count = strategies_of(&node.problem).len();
    &node.marks[..count]
}
