//! Finder of loops by forward closures.
//! (Lankford and Musser, A finite termination criterion, 1978; Dershowitz, Termination of
//! rewriting, 1987.)
#![tactic(auto)]

mod apart_rules;
mod binding;
mod clashing;
mod closures;
mod counting;
mod decoding;
mod found;
mod instances;
mod laws;
mod loops;
mod narrowing;
mod recurring;
mod rule_loops;
mod running;
mod tokens;
mod trying;
mod unifying;
mod writing;

pub use crit_pairs::{
    PeakFault, PeakPairs, PooledList, PooledTop, UnbuiltTop, critical_pairs, pooled_peaks,
    shared_peaks,
};
pub use found::LoopFound;
pub use laws::found_loops_are_loops;
pub use loops::find_loop;
