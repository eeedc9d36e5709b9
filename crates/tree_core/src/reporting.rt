//! The report of a tree of which each goal is lost.
ghost use Rattle.std.specs.Prelude.{◌≡◌, ◌<◌, ℕ, Some, All, map, slice_get, IfOk};
ghost use Rattle.tree_state.specs.cert_step.ProofStep.{IsWellMade};
ghost use Rattle.tree_state.specs.tree_definitions.Questions.{goal_count};
ghost use Rattle.tree_state.specs.tree_definitions.Verdicts.{IsLost};
ghost use Rattle.tree_state.specs.tree_definitions.Replies.{IsVerdict};
ghost use Rattle.tree_state.specs.tree_definitions.Reports.{Part, part_of, ArePartsOf, IsTrueReport};
ghost use Rattle.tree_core.specs.Reported.{IsReported};

use crate::tree::Tree;
use std::alloc::Global;
use tree_state::{GoalReport, Report, Verdict, goals_of};
use trs_core::OutOfMemory;

impl<'a> Tree<'a> {
    /// What is reported where each goal is lost: for each goal its steps in the order of the walk,
    /// the stuck node with the least number in that order, its problem, and how each of its
    /// strategies failed.
    pub fn report(&self, alloc: Global) -> Result<Report, OutOfMemory>
        requires { IsVerdict self.now (Some Verdict.Maybe) }
        ensures of_tree { IfOk result (λ r.
            ArePartsOf self.now.state.nodes (map part_of r.goals.items)) }
        ensures well_made { IfOk result (λ r. (g : ℕ) (part : Part)
            → slice_get (map part_of r.goals.items) g ≡ Some part
            → All (λ s. IsWellMade self.now.system s.step) part.steps) }
        ensures is_true { IfOk result (λ r. IsTrueReport self.now.system self.now.question
            self.now.budget (map part_of r.goals.items)) }
    {
        let mut goals = Vec::new(alloc);
        for goal in 0..goals_of(self.question).len() as u32 {
            let part = self.goal_report(alloc, goal)?;
            goals.push(part)?;
        }
        Ok(Report { goals })
    }

    // What is reported of a goal.
    fn goal_report(&self, alloc: Global, goal: u32) -> Result<GoalReport, OutOfMemory>
        requires goal { goal < goal_count self.now.question }
        requires lost { IsLost self.now.state.nodes goal }
        ensures { IfOk result (λ r. IsReported self.now goal (part_of r)) }
    {
        let order = self.board.walk(alloc, goal)?;
        let steps = self.board.steps(alloc, &order)?;
        let Some(place) = self.board.first_stuck(&order) else {
            unreachable!();
        };
        let n = order[place];
        let problem = self.board.problem(alloc, n)?;
        let failed = self.board.failures(alloc, n)?;
        Ok(GoalReport {
            goal,
            steps,
            node: place as u64,
            problem,
            failed,
        })
    }
}
