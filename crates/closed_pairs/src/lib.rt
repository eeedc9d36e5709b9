//! Confluence by critical peaks: joined in a terminating system, closed by parallel steps in a
//! left-linear one, joined strongly in a linear one. Each criterion has a file of its own.
//! (Huet, Confluent reductions, 1980; Baader and Nipkow, Term Rewriting and All That, chapter 6.)
#![tactic(auto)]

mod counting;
mod covering;
mod ends;
mod joined;
mod laws;
mod linear;
mod parallel;
mod pooled;
mod pooled_closings;
mod strong;

pub use crit_pairs::{
    PeakPair, PeakPairs, first_peaks, listed_peaks_cover, peaks_are_listed_once, top_of,
};
pub use joined::{join_check, newman_check, peak_is_joined};
pub use laws::{
    joined_peaks_conclude, parallel_closed_peaks_conclude, strongly_closed_peaks_conclude,
};
pub use linear::linear_check;
pub use parallel::{parallel_check, parallel_closed_check};
pub use rewrite_core::{Join, Peak};
pub use strong::{Four, strong_check, strongly_closed_check};
