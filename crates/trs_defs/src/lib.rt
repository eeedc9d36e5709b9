//! The definitions on which every claim rests: relations, terms, substitutions, rules, steps and
//! claims. They are in `specs/`, one notion a file; `proofs/` has the laws that other crates cite.
//! There is no code: the one function is a theorem, whose contract is the statement.
#![tactic(auto)]

mod caps;

pub use caps::reached_terms_fit;
