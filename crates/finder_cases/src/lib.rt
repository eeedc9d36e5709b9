//! What tests of finders share: systems as texts, the numbers of all pairs, and a stop that comes
//! at a given asking.
#![tactic(auto)]

mod numbers;
mod stops;
mod systems;

pub use numbers::all_numbers;
pub use stops::StopAt;
pub use systems::system;
