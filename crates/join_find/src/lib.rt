//! Finders of joins of critical peaks: by terms that both sides reach, by strong joins and by
//! parallel steps. Each finder has a file of its own.
//! (Huet, Confluent reductions, 1980; Baader and Nipkow, Term Rewriting and All That, chapter 6.)
#![tactic(auto)]

mod common;
mod kept_lists;
mod last_steps;
mod laws;
mod near;
mod newman;
mod parallel;
mod parallel_step;
mod reached_sides;
mod reaching;
mod root_rule;
mod sides;
mod strong;

pub use closed_pairs::{PeakPair, PeakPairs, top_of};
pub use kept_lists::KeptLists;
pub use laws::{found_fours_join, found_joins_join, found_steps_close};
pub use newman::{find_newman, newman_among};
pub use parallel::{find_parallel, parallel_among};
pub use sides::critical_peaks_have_sides;
pub use strong::{are_linear, find_strong, strong_among};
