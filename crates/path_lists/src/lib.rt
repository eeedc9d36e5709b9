//! The paths of up to four steps from a term, by their length: the first 256.
//!
//! A list of terms has each term once; here each path counts, also where two lead to one term.
#![tactic(auto)]

mod growth;
mod known_ends;
mod laws;
mod paths;
mod reducts;
mod room;

pub use growth::growth_of;
pub use known_ends::KnownEnds;
pub use laws::{listed_paths_lead, path_lists_are_one};
pub use paths::{MOST_OF_ENDS, MOST_OF_PATHS, paths_from, paths_with};
