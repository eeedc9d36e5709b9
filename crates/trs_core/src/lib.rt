//! Terms, positions, substitutions, rules and systems.
//!
//! Contracts see a term as a tree: `tree t.now`. (Baader and Nipkow, Term Rewriting and All That, chapter 3.)
#![tactic(auto)]

mod applying;
mod bindings;
mod checking;
mod extra;
mod faults;
mod in_order;
mod laws;
mod least;
mod limits;
mod linear;
mod matching;
mod memory;
mod plain;
mod positions;
mod replacing;
mod rules;
mod systems;
mod terms;
mod variable_set;
mod variables;

pub use applying::ApplySize;
pub use bindings::Subst;
pub use faults::TrsFault;
pub use laws::systems_are_valid;
pub use least::least_variable;
pub use limits::{
    GREATEST_DEPTH, GREATEST_NUMBER, MOST_NODES, MOST_RULES, MOST_SYMBOLS, MOST_VARIABLES,
    total_nodes,
};
pub use matching::match_term;
pub use memory::OutOfMemory;
pub use positions::Position;
pub use replacing::ReplaceFault;
pub use rules::{Rule, Trs};
pub use terms::{Args, Term};
