//! Reports of proof trees as texts: a line for each goal that was lost.
#![tactic(auto)]

mod failures;
mod goal_lines;
mod problem_words;
mod reports;

pub use reports::print_report;
pub use tree_definitions::{Limits, Question, Verdict};
