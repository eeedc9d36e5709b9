//! What steps say of dependency pairs, in texts: read and printed. Projections, items of the graph,
//! and the tables of orders, with entries of symbols.
#![tactic(auto)]

mod ascending;
mod entries;
mod graph_items;
mod knuth_entries;
mod linear_entries;
mod path_entries;
mod projections;
mod symbols;
mod top_ranks;

pub use entries::add_symbol;
pub use graph_items::{put_graph_items, read_graph_items};
pub use knuth_entries::{put_kbo_entries, read_knuth_order};
pub use linear_entries::{put_linear_entries, read_linear_table};
pub use path_entries::{put_path_entries, read_path_order};
pub use projections::{put_projections, read_projections};
pub use symbols::{put_name, read_symbol};
