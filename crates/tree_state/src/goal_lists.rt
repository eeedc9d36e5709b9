ghost use Rattle.std.specs.Prelude.{◌≡◌, ◌+◌, ◌-◌, ◌<◌, ◌^◌, true, false, None, Some, slice_get};
ghost use Rattle.tree_state.specs.Parts.{all_lost, opened, is_lost_in, lost_if, no_open_nodes};

use crate::goal_state::GoalState;

// The goal is lost.
pub(crate) fn lose(goals: &mut Vec<GoalState>, g: u32)
    ensures { goals.new.items ≡ lost_if true goals.old.items g }
{
    let g = g as usize;
    if g < goals.len() {
        goals[g].is_lost = true;
    }
}

// A node of the goal was decided and so many were made. Whether no node of it is open.
pub(crate) fn recount(goals: &mut Vec<GoalState>, g: u32, count: usize) -> bool
    requires { (goal : GoalState) → slice_get goals.old.items g ≡ Some goal
        → goal.open_nodes + count < 2 ^ 64 }
    ensures goals { goals.new.items ≡ opened goals.old.items g count }
    ensures none { result ≡ no_open_nodes (slice_get goals.new.items g) }
{
    let g = g as usize;
    if g >= goals.len() {
        return false;
    }
    let open_nodes = goals[g].open_nodes.saturating_sub(1) + count;
    goals[g].open_nodes = open_nodes;
    open_nodes == 0
}

pub(crate) fn are_all_lost(goals: &[GoalState]) -> bool
    ensures { result ≡ all_lost goals.now }
{
    goals.iter().all(|goal| goal.is_lost)
}

pub(crate) fn is_lost(goals: &[GoalState], g: u32) -> bool
    ensures { result ≡ is_lost_in goals.now g }
{
    match goals.get(g as usize) {
        None => false,
        Some(goal) => goal.is_lost,
    }
}
