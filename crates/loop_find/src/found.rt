use rewrite_core::PathStep;
use trs_core::{Position, Term};

/// A loop: a path from the start, to a term that holds an instance of the start at the place.
#[derive(Drop)]
pub struct LoopFound {
    pub start: Term,
    pub path: Vec<PathStep>,
    pub place: Position,
}
