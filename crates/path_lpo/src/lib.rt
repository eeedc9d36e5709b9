//! The lexicographic path order with argument filters, given by a table of ranks and filters.
//! (Baader and Nipkow, section 5.4; filters: Arts and Giesl, 2000.)
#![tactic(auto)]

mod comparing;
mod comparison;
mod effort;
mod entries;
mod equal;
mod faults;
mod graph;
mod kept;
mod large;
mod laws;
mod memo;
mod nodes;
mod orders;
mod pair;
mod parts;
mod precedence;
mod root;
mod shared;
mod sharing;
mod table;
mod terms;
mod unshared;
mod walking;

pub use comparing::{is_strict, is_weak, is_weak_shared, is_weak_sharing};
pub use entries::{Filter, LpoEntry};
pub use faults::TableFault;
pub use laws::full_tables_are_reduction_orders;
pub use pair::SharedPair;
pub use precedence::{LentFilter, Precedence};
pub use table::Lpo;
