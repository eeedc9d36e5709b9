//! Dependency pairs of a system, and checks of steps that remove pairs.
//! (Arts and Giesl, Termination of term rewriting using dependency pairs, 2000.)
#![tactic(auto)]

mod comparing;
mod contained;
mod defined;
mod entries;
mod laws;
mod lefts;
mod listing;
mod numbers;
mod ordered;
mod pairs;
mod prepared;
mod projections;
mod sides;
mod subterm;

pub use contained::{Containment, containment_in};
pub use defined::has_defined;
pub use entries::{lacking_in_rules, least_lacking};
pub use laws::{
    all_pairs_conclude, pair_steps_conclude, placed_pairs_are_the_pairs, subterm_steps_conclude,
};
pub use listing::dependency_pairs;
pub use numbers::pair_numbers;
pub use ordered::pair_check;
pub use pair_order::{MARK, PairingOrder, ReductionPair};
pub use pairs::DpPair;
pub use prepared::Pairs;
pub use sides::{Side, Sides, marked_term, pair_left, pair_right};
pub use subterm::subterm_check;
