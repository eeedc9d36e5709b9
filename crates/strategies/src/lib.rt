//! What each strategy finds for a problem of a proof, or why it finds nothing. Each strategy has a
//! file of its own, by its word.
#![tactic(auto)]

mod confluence;
mod dp;
mod failure;
mod fork;
mod found;
mod graph;
mod kbo;
mod label;
mod loops;
mod lpo;
mod newman;
mod on_peaks;
mod outcome;
mod pair_search;
mod parallel;
mod peak_search;
mod peaks;
mod poly;
mod ran;
mod run;
mod searched;
mod searcher;
mod split;
mod strategy;
mod strong;
mod subterm;
mod tables;
mod usable;

pub use cert_step::{Claim, GraphItem, Join, NodeStep, Problem, Proof, Step};
pub use failure::Failure;
pub use outcome::{Findings, Limits, Outcome};
pub use ran::Ran;
pub use run::run_strategy;
pub use searcher::Searcher;
pub use strategy::{MOST_STRATEGIES, Strategy, strategies_of};
pub use tables::Tables;
