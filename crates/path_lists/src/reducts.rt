//! The redexes of the ends of paths, with where the steps lead.
ghost use Rattle.std.specs.Prelude.{◌≡◌, length};

use term_pool::PathStep;

/// The steps at all redexes of a term, and the ids of their results.
#[derive(Drop)]
pub(crate) struct Reducts {
    pub(crate) steps: Vec<PathStep>,
    pub(crate) ends: Vec<u32>,
    pub(crate) ghost all: { length ends.items ≡ length steps.items },
}
