//! The finder of lexicographic path orders with argument filters.
//! (Hirokawa and Middeldorp, Tyrolean termination tool: techniques and features, 2007.)
#![tactic(auto)]

mod assigned;
mod comparing;
mod filters;
mod finding;
mod kept;
mod laws;
mod space;
mod table;
mod testing;

pub use finding::{find_lpo, find_lpo_in};
pub use laws::found_path_orders_apply;
