//! What the searches for orders share. Slots of finite searches that are named by symbols, and tables
//! of their values; the symbols of a problem's rules and pairs, the pairs as rules on marked terms,
//! and the constraints by their numbers.
#![tactic(auto)]

mod arities;
mod below_roots;
pub mod ends;
mod falling;
mod lent;
mod marking;
mod occurring;
pub mod placing;
mod problem;
mod reading;
pub mod roots;
mod symbol_sets;
mod symbols;
pub mod taking;
mod values;

pub use arities::arity_of;
pub use below_roots::symbols_with_sides;
pub use dp_core::{
    Containment, DpPair, Pairs, Side, Sides, containment_in, placed_pairs_are_the_pairs,
};
pub use falling::falling_at;
pub use lent::{LentRule, lend_rules};
pub use marking::{MarkedRule, lend_marked, marked_rules};
pub use occurring::{occurs, occurs_in_rule};
pub use problem::OrderProblem;
pub use reading::{Readable, find_first, find_first_by};
pub use symbols::order_symbols;
pub use values::value_at;
