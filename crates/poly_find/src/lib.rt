//! The finders of linear interpretations: one that makes all rules weak, and one that makes the
//! usable rules weak. (Lankford, On proving term rewriting systems are noetherian, 1979; Baader and
//! Nipkow, section 5.3; Arts and Giesl, 2000; Hirokawa and Middeldorp, Tyrolean termination tool:
//! techniques and features, 2007.)
#![tactic(auto)]

mod chosen;
mod comparing;
mod finding;
mod laws;
mod owners;
mod searching;
mod sizes;
mod space;
mod spans;
mod subterms;
mod table;
mod usable_finding;
mod usable_laws;

pub use finding::{find_poly, find_poly_in};
pub use laws::found_interpretations_apply;
pub use usable_finding::{find_usable, find_usable_in};
pub use usable_laws::found_usable_interpretations_apply;
