//! Confluence by decreasing diagrams: a rank for each rule, and paths that join each critical peak
//! with fitting ranks. (Van Oostrom, Confluence by decreasing diagrams, 2008.)
#![tactic(auto)]

mod covering;
mod fitting;
mod labelled;
mod laws;

pub use closed_pairs::{Four, newman_check, parallel_closed_check, strongly_closed_check};
pub use fitting::after_rank;
pub use labelled::{label_check, labelled_check};
pub use laws::{decreasing_peaks_conclude, labels_answer_once};
pub use rewrite_core::{Join, Peak};
