ghost use Rattle.std.specs.Prelude.{◌≡◌};
ghost use Rattle.tree_core.specs.tree_definitions.Events.{Replays};
ghost use Rattle.tree_core.specs.tree_definitions.Questions.{goal_count};
ghost use Rattle.tree_core.specs.tree_definitions.States.{opening};
ghost use Rattle.tree_core.specs.tree_definitions.Verdicts.{HasVerdict};

use crate::laws::trees_are_replays;
use std::marker::Model;
use tree_core::Tree;

/// A tree on which a verdict stands. Contracts see the tree.
#[derive(Drop)]
pub struct Finished<'a> {
    tree: Tree<'a>,
}

impl<'a> Model for Finished<'a> {
    ghost use Rattle.std.specs.Coded.{codes};
    ghost use Rattle.trs_defs.specs.Tree.{tree_code};
    ghost use Rattle.tree_core.specs.tree_definitions.Trees.{ProofTree};

    ghost Value = { ProofTree };

    ghost coded = { Prim.hlevel (codes, tree_code) };

    ghost use Rattle.tree_core.specs.tree_definitions.Questions.{goal_count};
    ghost use Rattle.tree_core.specs.tree_definitions.Verdicts.{HasVerdict};

    ghost view = { λ a. a.tree };

    ghost invariant = { λ a. HasVerdict (goal_count a.tree.question) a.tree.state };
}

impl<'a> Finished<'a> {
    pub(crate) fn new(tree: Tree<'a>) -> Finished<'a>
        requires { HasVerdict (goal_count tree.question) tree.state }
        ensures { result ≡ tree.entry }
    {
        Finished { tree }
    }

    /// The tree. A verdict stands on it, and its state is that to which its history leads.
    pub fn tree(&self) -> &Tree<'a>
        ensures tree { result.now ≡ self.now }
        ensures verdict { HasVerdict (goal_count self.now.question) self.now.state }
        ensures replays { Replays (goal_count self.now.question) self.now.system
            (opening self.now.question) self.now.history self.now.state }
    {
        trees_are_replays(&self.tree);
        &self.tree
    }
}
