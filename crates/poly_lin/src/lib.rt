//! Linear interpretations over the naturals, given by a table of polynomials. (Baader and Nipkow,
//! section 5.3; coefficients may be 0, as in Arts and Giesl, 2000.)
#![tactic(auto)]

mod coefficients;
mod comparing;
mod counting;
mod covering;
mod faults;
mod listing;
mod orders;
mod profiles;
mod rows;
mod small;
mod subterms;
mod table;
mod too_big;
mod values;
mod window;

pub use coefficients::Coefficients;
pub use comparing::{either_is_big, either_is_big_in, is_strictly_above, is_weakly_above};
pub use faults::TableFault;
pub use profiles::Profile;
pub use rows::Row;
pub use small::{is_strictly_above_if_small, is_weakly_above_if_small};
pub use subterms::Subterms;
pub use table::LinTable;

/// What a symbol stands for that no system has: C(x1, x2) is x1 + x2.
const PAIRING: u32 = 8191;
