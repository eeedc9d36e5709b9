//! The finder of ranks of rules by which each critical peak is decreasing.
//! (Van Oostrom, Confluence by decreasing diagrams, 2008: the rule labelling.)
#![tactic(auto)]

mod closing;
mod constraint;
mod constraints;
mod fitting;
mod grouping;
mod groups;
mod joining;
mod label;
mod laws;
mod listed_sides;
mod lists;
mod meeting;
mod rule_list;
mod side_rules;
mod space;
mod used;

pub use label::{Labelled, find_label, label_among};
pub use laws::found_labels_apply;
