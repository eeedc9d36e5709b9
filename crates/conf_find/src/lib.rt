//! Finders of what the kinds of steps on confluence need beside joins: forks to two terms that
//! never meet again, and forks to two different normal forms. Each finder has a file of its own; the
//! one of ranks of rules is in a crate of its own, and is handed on.
//! (Zankl, Felgenhauer and Middeldorp, CSI, a confluence tool, 2011.)
#![tactic(auto)]

mod cap_meeting;
mod cap_node;
mod caps;
mod endings;
mod first_fork;
mod first_parts;
mod fork;
mod forks;
mod laws;
mod marks;
mod parting;
mod reached_sides;
mod reaching;
mod shared_caps;
mod split;

pub use fork::{find_fork, fork_among};
pub use forks::ForkFound;
pub use join_find::{
    find_newman, find_parallel, find_strong, found_fours_join, found_joins_join, found_steps_close,
    newman_among, parallel_among, strong_among,
};
pub use label_find::{Labelled, find_label, found_labels_apply, label_among};
pub use laws::{found_forks_apply, found_splits_apply};
pub use split::{find_split, split_among};
