//! Problem texts: the ARI format of the termination and confluence competitions, format TRS, read and printed.
#![tactic(auto)]

mod checking;
mod counting;
mod entry;
mod fault;
mod laws;
mod printing;
mod reading;
mod rules;

pub use fault::AriFault;
pub use laws::{least_is_least, one_system};
pub use names_text::{NamedTrs, NamesFault, put_variable, underscores};
pub use printing::print_problem;
pub use reading::read_problem;
pub use term_text::{put_term, read_term};
