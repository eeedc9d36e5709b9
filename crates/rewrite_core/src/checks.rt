//! What is said of any check of a step of a proof: why it refuses (`StepRefused`, with its number
//! and fields), what a check answers (`CheckFault`), and what steps hold that are checked: peaks,
//! joins and the tests of forks. The conditions of a check and their answers are defined in
//! specs/Check.antt.

mod forks;
mod joins;
mod path_check;
mod peaks;
mod reasons;
mod refusals;
mod sides;

pub use forks::ForkTest;
pub use joins::{Join, copy_path};
pub use path_check::{end_in_pool, end_of_path};
pub use peaks::{BuiltTop, Peak, Top};
pub use reasons::RefusalFields;
pub use refusals::{CheckFault, StepRefused};
pub use sides::{PeakSide, SharedSide};
