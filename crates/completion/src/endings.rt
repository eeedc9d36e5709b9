use trs_core::{Term, Trs};

/// How completion ends.
#[derive(Drop)]
pub enum Completion {
    /// The rules are terminating and confluent, and convert what the equations convert.
    Done(Trs),
    /// The equations convert the terms, and neither is greater. Variables are numbered in order of
    /// first occurrence in the first term and then in the second.
    Unorientable(Term, Term),
    /// The next step or rule would be one unit too many.
    Spent,
    /// A step, the critical peaks or the rules pass a limit, or a new rule is deeper than 256.
    Limit,
}
