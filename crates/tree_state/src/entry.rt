use tree_definitions::{Failure, Problem, Step, Strategy};

/// What an entry of the history says of its ticket.
#[derive(Drop)]
pub enum Event {
    /// It was given for this strategy of this problem.
    Claimed(Problem, Strategy),
    Found(Step),
    Failed(Failure),
    Cancelled,
    Aborted,
}

/// An entry of the history: the seat that claimed the ticket, the ticket, and what became of it.
#[derive(Drop)]
pub(crate) struct Entry {
    pub(crate) seat: u32,
    pub(crate) ticket: u64,
    pub(crate) event: Event,
}
