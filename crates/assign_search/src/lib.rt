//! Finite search: values for slots that meet constraints, the first in lexicographic order.
#![tactic(auto)]

mod grouping;
mod memory;
mod search;
mod space;
mod stop;
mod testing;
mod visiting;

pub use memory::OutOfMemory;
pub use search::{Search, first_solution, first_solution_by};
pub use space::Space;
pub use stop::{Never, Stop};
pub use testing::{Anew, Tester};
