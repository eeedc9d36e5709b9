use crate::Outcome;

/// How the run of a strategy ended.
#[derive(Drop)]
pub enum Ran<'a> {
    /// With an outcome.
    Ended(Outcome<'a>),
    /// It was stopped.
    Stopped,
}
