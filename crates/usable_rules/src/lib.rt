//! The usable rules of a problem of dependency pairs, and the check of steps by them.
//! (Arts and Giesl, Termination of term rewriting using dependency pairs, 2000.)
#![tactic(auto)]

mod closing;
mod lacking;
mod laws;
mod marking;
mod numbering;
mod ordered;
mod rules;

pub use laws::usable_steps_conclude;
pub use ordered::{prepared_usable_check, usable_check};
pub use rules::{usable, usable_for};
