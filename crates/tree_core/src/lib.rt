//! The proof tree: what strategies find is put together into a proof, whatever the order in which
//! they answer.
#![tactic(auto)]

mod calls;
mod laws;
mod reporting;
mod tree;

pub use laws::{
    lost_goals_have_a_true_report, opposite_claims_are_not_both_won, replays_are_one,
    won_claims_are_true,
};
pub use tree::Tree;
pub use tree_state::{
    Aborted, Claim, Claimed, Failure, Findings, GoalReport, GraphItem, Join, Limits, Mark,
    NodeStep, Outcome, Polled, Posted, Problem, Question, Ran, Report, Searcher, Step, Strategy,
    Tables, Task, Ticket, Verdict, run_strategy, strategies_of,
};
