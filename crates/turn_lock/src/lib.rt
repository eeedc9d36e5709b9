//! A lock over seats: one value that one seat at a time holds, and one history of it that all seats
//! share. What a seat has seen is a beginning of the history, and of the entries of its own number it
//! knows each, once and in order.
#![tactic(auto)]

mod chronicle;
mod lends;
mod lock;
mod patience;
mod plays;
mod rule;
mod sharing;
mod signed;
mod sitting;

pub use chronicle::Chronicle;
pub use lock::{Grip, Held, Seat, TurnLock};
pub use patience::Patience;
pub use sharing::take_apart;
pub use signed::Signed;
pub use sitting::Sitting;
