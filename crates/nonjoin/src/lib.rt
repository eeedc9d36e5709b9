//! Terms that are never joinable, by their caps. (Zankl, Felgenhauer and Middeldorp, 2011.)
#![tactic(auto)]

mod clashing;
mod comparing;
mod laws;

pub use comparing::{apart, apart_in_pool};
pub use laws::apart_terms_are_not_joinable;
pub use term_pool::Pool;
