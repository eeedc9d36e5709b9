//! Completion of equations to a convergent system, by a path order. (Knuth and Bendix, Simple word
//! problems in universal algebras, 1970; Baader and Nipkow, section 7.1.)
#![tactic(auto)]

mod closing;
mod completing;
mod endings;
mod first_steps;
mod growing;
mod laws;
mod met;
mod normalizing;
mod orienting;
mod passed_ids;
mod renumbering;
mod searching;
mod taking;
mod treating;
mod unfinished;

pub use completing::complete;
pub use endings::Completion;
pub use laws::{completed_runs_are_right, runs_have_one_ending};
pub use unfinished::Unfinished;
