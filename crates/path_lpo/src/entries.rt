ghost use Rattle.std.specs.Prelude.{◌≡◌, ◌↔◌, IsTrue, IfOk};
ghost use Rattle.path_lpo.specs.Plain.{plain, plain_filter};
ghost use Rattle.path_lpo.specs.Table.{IsProper, AscendsFrom};

use std::alloc::Global;
use trs_core::OutOfMemory;

/// What becomes of a term with some root: its argument at a place, or the term with the arguments at
/// some places, in the listed order. Places are counted from 1.
#[derive(Drop)]
pub enum Filter {
    To(u8),
    Keep(Vec<u8>),
}

/// An entry of a path order: the rank and the filter of a symbol.
#[derive(Drop)]
pub struct LpoEntry {
    pub symbol: u32,
    pub rank: u64,
    pub filter: Filter,
}

impl Filter {
    /// Whether its places are from 1 on, and ascend strictly.
    pub(crate) fn is_proper(&self) -> bool
        ensures { IsTrue result ↔ IsProper (plain_filter self.now) }
    {
        match self {
            Filter::To(place) => *place != 0,
            Filter::Keep(places) => ascend(places),
        }
    }

    pub(crate) fn copy(&self, alloc: Global) -> Result<Filter, OutOfMemory>
        ensures { IfOk result (λ filter. plain_filter filter ≡ plain_filter self.now) }
    {
        match self {
            Filter::To(place) => Ok(Filter::To(*place)),
            Filter::Keep(places) => Ok(Filter::Keep(Vec::from_slice(alloc, places)?)),
        }
    }
}

impl LpoEntry {
    pub(crate) fn copy(&self, alloc: Global) -> Result<LpoEntry, OutOfMemory>
        ensures { IfOk result (λ entry. plain entry ≡ plain self.now) }
    {
        Ok(LpoEntry {
            symbol: self.symbol,
            rank: self.rank,
            filter: self.filter.copy(alloc)?,
        })
    }
}

fn ascend(places: &[u8]) -> bool
    ensures { IsTrue result ↔ AscendsFrom 0 places.now }
{
    let mut last = 0;
    for place in places {
        if *place <= last {
            return false;
        }
        last = *place;
    }
    true
}
