//! Names in texts: systems whose symbols have names, and the names with which variables are written.
#![tactic(auto)]

mod index;
mod named;
mod names;
mod names_fault;
mod symbols;
mod table;
mod trees;
mod variable_names;

pub use named::{NamedTrs, systems_are_named};
pub use names::Names;
pub use names_fault::NamesFault;
pub use symbols::Symbols;
pub use table::{Symbol, SymbolTable};
pub use variable_names::{put_variable, underscores};
