//! Reduction pairs that code compares terms by, and what the tables behind them share.
#![tactic(auto)]

mod pairs;
mod removal;
mod symbol_index;

pub use pairs::{Decrease, PairingOrder, ReductionPair, TooBig};
pub use removal::remove_pairs_with_entries;
pub use symbol_index::SymbolIndex;

/// What the number of a symbol grows by where it is marked.
pub const MARK: u32 = 4_096;
