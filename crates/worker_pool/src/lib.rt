//! Workers on a proof tree: they claim tasks, run them and post what was answered, until a verdict
//! stands.
#![tactic(auto)]

mod alone;
mod entry;
mod finished;
mod gate;
mod laws;
mod pool;
mod seated;
mod shared;
mod tables;
mod turn;
mod watch;
mod watching;
mod worker;

pub use alone::prove_alone;
pub use finished::Finished;
pub use gate::{Gate, OpenGate};
pub use pool::prove_with;
pub use tree_core::{
    Aborted, Claim, Claimed, Failure, Findings, GoalReport, GraphItem, Join, Limits, Mark,
    NodeStep, Outcome, Polled, Posted, Problem, Question, Ran, Report, Step, Strategy, Task,
    Ticket, Tree, Verdict, lost_goals_have_a_true_report, run_strategy, strategies_of,
};
