//! What is known of each tree: laws, with nothing to run but the reading of the tree.
ghost use Rattle.std.specs.Prelude.{◌<◌, ◌^◌, length};
ghost use Rattle.tree_core.specs.tree_definitions.Events.{Replays};
ghost use Rattle.tree_core.specs.tree_definitions.History.{IsOwned};
ghost use Rattle.tree_core.specs.tree_definitions.Questions.{goal_count};
ghost use Rattle.tree_core.specs.tree_definitions.States.{opening};

use tree_core::Tree;

/// A tree is the replay of its history.
pub(crate) fn trees_are_replays(tree: &Tree)
    ensures { Replays (goal_count tree.now.question) tree.now.system
        (opening tree.now.question) tree.now.history tree.now.state }
{
    let _entries = tree.history_len();
}

/// All entries about a ticket are of one seat.
pub(crate) fn tickets_have_one_seat(tree: &Tree)
    ensures { IsOwned tree.now.history }
{
    let _entries = tree.history_len();
}

/// A history has fewer than 2^21 entries.
pub(crate) fn histories_are_short(tree: &Tree)
    ensures { length tree.now.history < 2 ^ 21 }
{
    let _entries = tree.history_len();
}
