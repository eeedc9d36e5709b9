ghost use Rattle.std.specs.Prelude.{◌≡◌, ◌+◌, ◌-◌, ◌<◌, ◌≤◌, ℕ, List, None, Some};
ghost use Rattle.std.specs.Prelude.{length, map, slice_get, MatchOption};
ghost use Rattle.tree_definitions.specs.History.{HistoryEntry, claimed, found};
ghost use Rattle.tree_state.specs.Seen.{node_of};
ghost use Rattle.tree_definitions.specs.States.{TreeNode};
ghost use Rattle.tree_state.specs.Parts.{free_place};

use crate::goal_lists::is_lost;
use crate::goal_state::GoalState;
use crate::node::Node;
use crate::node_lists::{first_idle, marks_of};

// The least node, from this one on, with a strategy that can be claimed, and the strategy's place.
pub(crate) fn first_free(nodes: &[Node], goals: &[GoalState], from: usize) -> (usize, Option<usize>)
    ensures later { from ≤ result.0 }
    ensures within { from ≤ length nodes.now → result.0 ≤ length nodes.now }
    ensures passed { (history : List HistoryEntry) (k : ℕ) (node : TreeNode) → from ≤ k
        → k < result.0 → slice_get (map (node_of history) nodes.now) k ≡ Some node
        → free_place goals.now node ≡ None }
    ensures found { MatchOption result.1 (length nodes.now ≤ result.0)
        (λ place. (history : List HistoryEntry) → (node : TreeNode)
        × (slice_get (map (node_of history) nodes.now) result.0 ≡ Some node)
        × (free_place goals.now node ≡ Some place)) }
{
    let mut k = from;
    while k < nodes.len() {
        let place = place_of(goals, &nodes[k]);
        if place.is_some() {
            return (k, place);
        }
        k += 1;
    }
    (k, None)
}

// The place of the strategy of the node that can be claimed.
fn place_of(goals: &[GoalState], node: &Node) -> Option<usize>
    ensures { (history : List HistoryEntry)
        → result ≡ free_place goals.now (node_of history node.now) }
{
    if node.decision.is_some() || is_lost(goals, node.goal) {
        return None;
    }
    first_idle(marks_of(node))
}
