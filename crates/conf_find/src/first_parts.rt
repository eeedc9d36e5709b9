//! The parts of a cap that stand at the variables of a left side.
ghost use Rattle.std.specs.Prelude.{◌≡◌, []};

use std::alloc::Global;
use std::collections::BTreeMap;

/// The first part of a cap at each variable of a term, where it is no hole.
#[derive(Drop)]
pub(crate) struct FirstParts {
    /// The numbers of these parts, by the variables.
    pub(crate) numbers: BTreeMap<u32, u32>,
    /// Whether each further part at a variable, but for holes, has the number of the first one.
    pub(crate) are_all: bool,
}

impl FirstParts {
    /// No parts yet. It takes no memory.
    pub(crate) fn new(alloc: Global) -> FirstParts
        ensures { result.numbers.entries ≡ [] }
    {
        FirstParts {
            numbers: BTreeMap::new(alloc),
            are_all: true,
        }
    }
}
