//! The board of a proof tree: the parts that change, and the changes of which the calls of a tree
//! are made. Each change is an equation between parts; that they keep a tree a tree is shown above.
#![tactic(auto)]

mod board;
mod endings;
mod entry;
mod goal_lists;
mod goal_state;
mod node;
mod node_lists;
mod reporting;
mod searching;
mod walking;

pub use board::Board;
pub use entry::Event;
pub use goal_state::GoalState;
pub use tree_definitions::{
    Aborted, Claim, Claimed, Failure, Findings, GoalReport, GraphItem, Join, Limits, Mark,
    NodeStep, Outcome, Polled, Posted, Problem, Proof, Question, Ran, Report, Searcher, Step,
    Strategy, Tables, Task, Ticket, Verdict, goals_of, run_strategy, strategies_of,
};
