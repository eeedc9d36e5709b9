ghost use Rattle.std.specs.Prelude.{◌≡◌, List, Some};
ghost use Rattle.tree_state.specs.cert_step.Opposites.{opposite};
ghost use Rattle.tree_state.specs.cert_step.ProofProblem.{Says};
ghost use Rattle.tree_state.specs.cert_step.declared.claim.Claim.{Claim};
ghost use Rattle.tree_state.specs.tree_definitions.Replies.{IsVerdict};
ghost use Rattle.tree_state.specs.tree_definitions.Reports.{Part, IsTrueReport};
ghost use Rattle.tree_core.specs.Laws.{ReplaysAreOne, IsWonBy};

use crate::tree::Tree;
use tree_state::Verdict;

/// A law, with nothing to run: from the opening of a question on a system a history leads to at most
/// one state. So a tree is the one replay of its history.
pub fn replays_are_one()
    ensures { ReplaysAreOne }
{}

/// A law, with nothing to run but the reading of the tree: what the goal claims that a tree won
/// first is true of the system.
pub fn won_claims_are_true(tree: &Tree<'_>)
    ensures { (claim : Claim) → IsWonBy tree.now claim → Says tree.now.system claim }
{
    let _question = tree.question;
}

/// A law, with nothing to run but the reading of the tree: where each goal of a tree is lost, there
/// is a true report of the goals.
pub fn lost_goals_have_a_true_report(tree: &Tree<'_>)
    requires { IsVerdict tree.now (Some Verdict.Maybe) }
    ensures { (parts : List Part)
        × IsTrueReport tree.now.system tree.now.question tree.now.budget parts }
{
    let _question = tree.question;
}

/// A law, with nothing to run: no two trees on one system are won by opposite claims, whatever was
/// asked, within whatever budgets, and however their histories went.
pub fn opposite_claims_are_not_both_won(tree: &Tree<'_>, other: &Tree<'_>)
    requires { other.now.system ≡ tree.now.system }
    ensures { (claim : Claim) → IsWonBy tree.now claim →
        IsWonBy other.now (opposite claim) → ⊥ }
{
    won_claims_are_true(tree);
    won_claims_are_true(other);
}
