//! The dependency graph, estimated by caps, and steps that split a problem along it.
//! (Arts and Giesl, 2000; Giesl, Thiemann and Schneider-Kamp, Proving and disproving termination of
//! higher-order functions, 2005.)
#![tactic(auto)]

mod by_root;
mod cap_rows;
mod checking;
mod collecting;
mod earlier;
mod edges;
mod finding;
mod finishing;
mod flag_rows;
mod graph;
mod items;
mod laws;
mod leaders;
mod lefts;
mod lists;
mod naming;
mod nodes;
mod noted;
mod onward;
mod ordering;
mod places;
mod reversed;
mod rows;
mod singles;
mod term_hash;
mod unnamed;
mod waiting;
mod word_rows;

pub use checking::group_check;
pub use dp_core::{Pairs, dependency_pairs, pair_numbers};
pub use edges::edge;
pub use finding::components;
pub use graph::PairGraph;
pub use items::GraphItem;
pub use laws::{
    components_pass, edges_are_by_arguments, edges_cover_chain_steps, graph_steps_conclude,
};
