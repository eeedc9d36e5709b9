//! The words of the proof tree: questions and their goals, nodes, tickets, histories and the
//! states to which they lead, verdicts, and reports. What a tree promises is said in these words.
#![tactic(auto)]

mod answers;
mod goal;
mod mark;
mod question;
mod report;
mod ticket;

pub use answers::{Aborted, Claimed, Polled, Posted, Task, Verdict};
pub use goal::Goal;
pub use mark::Mark;
pub use question::{Question, goals_of};
pub use report::{GoalReport, Report};
pub use strategies::{
    Claim, Failure, Findings, GraphItem, Join, Limits, MOST_STRATEGIES, NodeStep, Outcome, Problem,
    Proof, Ran, Searcher, Step, Strategy, Tables, run_strategy, strategies_of,
};
pub use ticket::Ticket;
