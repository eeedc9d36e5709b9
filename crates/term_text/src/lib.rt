//! Terms of texts, read and printed.
#![tactic(auto)]

mod checked;
mod fault;
mod limits;
mod own_terms;
mod printing;
mod renumbering;

pub use checked::{Judged, both, check_term, push_judged};
pub use fault::{Refusal, TermFault};
pub use limits::nodes_left_behind;
pub use own_terms::{put_own_term, read_own_term, read_term};
pub use printing::put_term;
