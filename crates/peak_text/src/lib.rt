//! What steps say of critical peaks, in texts: read and printed.
#![tactic(auto)]

mod four_paths;
mod parallel_step;
mod rule_ranks;
mod two_paths;

pub use closed_pairs::Four;
pub use four_paths::{put_fours, read_fours};
pub use parallel_step::{put_parallel_steps, read_parallel_steps};
pub use rule_ranks::{put_ranks, read_ranks};
pub use two_paths::{put_joins, put_pairs, read_joins, read_pairs};
