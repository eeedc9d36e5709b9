//! Caps of terms: what stays of a term whatever steps are made.
//! (Giesl, Thiemann and Schneider-Kamp, Proving and disproving termination of higher-order
//! functions, 2005.)
#![tactic(auto)]

mod agreeing;
mod capping;
mod clashing;
mod holed;
mod knowing;
mod meeting;
mod naming;
mod shapes;

pub use capping::{cap, tcap};
pub use holed::{Cap, Parts};
pub use knowing::KnownCaps;
