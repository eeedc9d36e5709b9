//! The walk of a goal's nodes, by which they are numbered anew.
ghost use Rattle.std.specs.Prelude.{◌≡◌, ◌<◌, ◌+◌, ◌^◌, ◌++◌, ◌∷◌, [], ℕ, List, Some};
ghost use Rattle.std.specs.Prelude.{length, map, slice_get, IfOk, OnOk};
ghost use Rattle.tree_definitions.specs.History.{HistoryEntry};
ghost use Rattle.tree_definitions.specs.Reports.{Walks, numbers};
ghost use Rattle.tree_state.specs.Ascending.{IsAscending, own_kids};
ghost use Rattle.tree_state.specs.Seen.{node_of};

use crate::node::Node;
use std::alloc::{AllocError, Global};

// The nodes of the goal whose root is given, in the order of the walk: children come after their
// parent, and behind those that wait. Children have greater numbers than their parent, so the walk
// ends.
pub(crate) fn walk(alloc: Global, nodes: &[Node], root: usize) -> Result<Vec<usize>, AllocError>
    requires root { root < length nodes.now }
    requires ascending { IsAscending nodes.now }
    ensures { IfOk result (λ order. (history : List HistoryEntry)
        → Walks (map (node_of history) nodes.now) (root ∷ []) order.items) }
{
    let mut order = Vec::new(alloc);
    order.push(root)?;
    let mut i = 0;
    while i < order.len() {
        let n = order[i];
        push_children(&nodes[n], &mut order)?;
        i += 1;
    }
    Ok(order)
}

// The children of the node come next.
fn push_children(node: &Node, order: &mut Vec<usize>) -> Result<(), AllocError>
    requires { (k : ℕ) (c : ℕ) → slice_get (own_kids node.now.decision) k ≡ Some c → c < 2 ^ 63 }
    ensures { OnOk result (order.new.items ≡ order.old.items ++ own_kids node.now.decision) }
{
    match node.decision {
        None => Ok(()),
        Some(decision) => push_numbers(decision.first, decision.count, order),
    }
}

fn push_numbers(first: usize, count: usize, order: &mut Vec<usize>) -> Result<(), AllocError>
    requires { (k : ℕ) → k < count → first + k < 2 ^ 63 }
    ensures { OnOk result (order.new.items ≡ order.old.items ++ numbers first count) }
{
    for k in 0..count {
        order.push(first + k)?;
    }
    Ok(())
}
