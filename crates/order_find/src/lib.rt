//! The finders of orders on the terms of dependency pairs, as finite searches. The one for the
//! subterm criterion is here; those of path orders, Knuth-Bendix orders and linear interpretations
//! are in crates of their own, and are handed on.
//! (Hirokawa and Middeldorp, Tyrolean termination tool: techniques and features, 2007.)
#![tactic(auto)]

mod laws;
mod memo;
mod subterm;
mod subterm_space;
mod testing;

pub use kbo_find::{find_kbo, find_kbo_in, found_knuth_bendix_orders_apply};
pub use laws::found_places_apply;
pub use lpo_find::{find_lpo, find_lpo_in, found_path_orders_apply};
pub use poly_find::{
    find_poly, find_poly_in, find_usable, find_usable_in, found_interpretations_apply,
    found_usable_interpretations_apply,
};
pub use subterm::{find_subterm, find_subterm_in};
