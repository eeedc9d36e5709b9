//! The Knuth-Bendix order, given by a table of arities, weights and ranks. (Knuth and Bendix, 1970;
//! Baader and Nipkow, section 5.4.)
#![tactic(auto)]

mod balances;
mod comparing;
mod entries;
mod faults;
mod measure;
mod orders;
mod profiles;
mod table;
mod weighting;

pub use comparing::{is_strict, is_weak};
pub use entries::KboEntry;
pub use faults::KboFault;
pub use profiles::Profile;
pub use table::Kbo;
pub use weighting::Weighting;
