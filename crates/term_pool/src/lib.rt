//! A pool of shared terms: equal terms have one number, and a step makes only what it changes.
//!
//! Contracts see a pool as the list of its terms, by their numbers. (Filliâtre and Conchon,
//! Type-safe modular hash-consing, 2006.)
#![tactic(auto)]

mod bindings;
mod contracting;
mod crossing;
mod distinct;
mod instances;
mod interning;
mod knowing;
mod known;
mod left_sides;
mod listing;
mod matching;
mod narrow;
mod nodes;
mod normal;
mod noted_instances;
mod outlines;
mod outlining;
mod paths;
mod placing;
mod pools;
mod reached;
mod reaching;
mod roots;
mod running;
mod steps;

pub use crossing::KnownIds;
pub use distinct::ids_are_distinct;
pub use known::Known;
pub use narrow::paths_keep_narrow;
pub use noted_instances::Instances;
pub use paths::{PathFault, PathStep, one_longer};
pub use pools::Pool;
pub use roots::RulesByRoot;
pub use running::MOST_ADDED;
pub use steps::StepFault;
