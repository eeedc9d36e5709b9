ghost use Rattle.std.specs.Prelude.{◌≡◌, ℕ};
ghost use Rattle.order_theory.specs.ArgumentFilter.{ArgumentFilter};
ghost use Rattle.path_lpo.specs.Plain.{plain_filter};
ghost use Rattle.path_lpo.specs.Lent.{lent_filter};
ghost use Rattle.path_lpo.specs.Table.{rank_in, filter_in};

use crate::{Filter, Lpo};
use std::alloc::Global;

/// A filter whose places are lent.
#[derive(Clone, Copy)]
pub enum LentFilter<'a> {
    To(u8),
    Keep(&'a [u8]),
}

/// What gives each symbol its rank and its filter, and so a path order. No call of its own takes
/// memory.
pub trait Precedence {
    /// The rank of each symbol.
    ghost ranks: { Self → ℕ → ℕ };

    /// The filter of each symbol.
    ghost filters: { Self → ℕ → ArgumentFilter };

    fn rank(&self, symbol: u32) -> u64
        ensures { result ≡ ranks self.now symbol };

    fn filter(&self, symbol: u32) -> LentFilter<'_>
        ensures { lent_filter result ≡ filters self.now symbol };

    /// Where a comparison of large terms may take memory. Its answer is the same without.
    fn allocator(&self) -> Option<Global>;
}

impl Filter {
    pub fn lend(&self) -> LentFilter<'_>
        ensures { lent_filter result ≡ plain_filter self.now }
    {
        match self {
            Filter::To(place) => LentFilter::To(*place),
            Filter::Keep(places) => LentFilter::Keep(places),
        }
    }
}

impl Precedence for Lpo {
    ghost ranks = { λ order. rank_in order };

    ghost filters = { λ order. filter_in order };

    fn rank(&self, symbol: u32) -> u64 {
        match self.entry(symbol) {
            Some(entry) => entry.rank,
            None => 0,
        }
    }

    fn filter(&self, symbol: u32) -> LentFilter<'_> {
        match self.entry(symbol) {
            Some(entry) => entry.filter.lend(),
            None => LentFilter::Keep(&[]),
        }
    }

    fn allocator(&self) -> Option<Global> {
        Some(self.allocator())
    }
}
