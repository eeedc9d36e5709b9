/// A hook for tests of a pool of workers. No answer depends on what it does.
pub trait Gate: Sync {
    /// A worker has claimed the ticket, and has not begun its search.
    fn before(&self, ticket: u64);

    /// The ticket's search asks whether it is to stop, and the tree is polled next. The worker does not
    /// have the turn.
    fn asked(&self, ticket: u64);

    /// The ticket has ended.
    fn after(&self, ticket: u64);
}

/// A gate that does nothing.
#[derive(Clone, Copy, Debug, Drop)]
pub struct OpenGate;

impl Gate for OpenGate {
    fn before(&self, _ticket: u64) {}

    fn asked(&self, _ticket: u64) {}

    fn after(&self, _ticket: u64) {}
}
