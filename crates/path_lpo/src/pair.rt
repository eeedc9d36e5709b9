use crate::graph::Graph;
use crate::parts::Span;

/// Two filtered terms that share their subterms. It serves any order with the same filters.
#[derive(Drop)]
pub struct SharedPair {
    pub(crate) graph: Graph,
    /// Of each subterm some numbers of its parts.
    pub(crate) spans: Vec<Span>,
    pub(crate) left: u32,
    pub(crate) right: u32,
}
