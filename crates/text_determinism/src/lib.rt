//! What is the only one. A system has at most one first loop within a budget, a strategy at most one
//! answer to a problem, but for the numbers of variables; so with one worker a question has one
//! text. Each function is a theorem: its contract is the statement, and it does nothing.
#![tactic(auto)]

mod answers;
mod loops;
mod texts;

pub use answers::answers_are_one;
pub use loops::{loop_answers_exclude, loops_are_one};
pub use texts::{problem_texts_have_one_text, sample_lines_are_one, serial_texts_are_one};
