//! The sample: a system that is made from a number, and whether workers prove it terminating.
//! The systems are a family of any size up to a limit: the function `f0` adds, and each later one is
//! defined by the one before it.
#![tactic(auto)]

mod family;
mod judgement;
mod judging;
mod line;
mod rules;
mod symbols;
mod terms;

pub use family::sample_system;
pub use judgement::Judgement;
pub use judging::judge;
pub use line::{sample_line, sample_line_with};
