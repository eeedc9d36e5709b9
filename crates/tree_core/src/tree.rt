ghost use Rattle.std.specs.Prelude.{◌≡◌};

use std::marker::Model;
use tree_state::{Board, Limits, Question};
use trs_core::Trs;

/// The goals of a question on a system, and what was found out about them. Workers claim tasks and
/// post what they find, in any order. Contracts see the question, the system, the budget, the
/// history of all claims and endings, and the state to which the history leads: a tree is the replay
/// of its history, and legal.
///
/// All claims together take time linear in the nodes and the claims, but for the copies of problems.
/// The other calls take constant time, and posting a step time linear in what it leaves.
#[derive(Drop)]
pub struct Tree<'a> {
    pub(crate) question: Question,
    pub(crate) system: &'a Trs,
    pub(crate) limits: Limits,
    pub(crate) board: Board,
}

impl<'a> Model for Tree<'a> {
    ghost use Rattle.std.specs.Coded.{codes};
    ghost use Rattle.trs_defs.specs.Tree.{tree_code};
    ghost use Rattle.tree_state.specs.tree_definitions.Trees.{ProofTree};

    ghost Value = { ProofTree };

    ghost coded = { Prim.hlevel (codes, tree_code) };

    ghost use Rattle.tree_core.specs.Invariant.{IsTree};

    ghost view = { λ a. record {
      question = a.question;
      system = a.system.now;
      budget = a.limits.budget;
      history = a.board.history;
      state = a.board.state;
    } };

    ghost invariant = { λ a. IsTree a.question a.system.now a.limits.budget a.board };
}
