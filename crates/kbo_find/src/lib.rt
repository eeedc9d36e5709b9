//! The finder of Knuth-Bendix orders. (Knuth and Bendix, 1970; Baader and Nipkow, section 5.4.)
#![tactic(auto)]

mod assigned;
mod balance;
mod comparing;
mod counts;
mod finding;
mod laws;
mod left_sides;
mod occurrences;
mod space;
mod table;
mod tops;
mod weighing;

pub use finding::{find_kbo, find_kbo_in};
pub use laws::found_knuth_bendix_orders_apply;
