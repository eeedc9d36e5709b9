//! The path order that values of the slots say, without a table of its own.
ghost use Rattle.std.specs.Prelude.{◌≡◌, [], map, slice_get, unwrap_or};
ghost use Rattle.order_theory.specs.ArgumentFilter.{Keep};
ghost use Rattle.path_lpo.specs.Lent.{lent_filter};
ghost use Rattle.path_lpo.specs.Plain.{plain_filter};
ghost use Rattle.path_lpo.specs.Table.{rank_in, filter_in};
ghost use Rattle.lpo_find.specs.Filters.{plain_filters};
ghost use Rattle.lpo_find.specs.LpoRow.{entries_of};

use crate::space::LpoSpace;
use order_search::value_at;
use path_lpo::{Filter, LentFilter, Precedence};
use std::alloc::Global;

/// The order by which each symbol has the filter and the rank of its two slots.
#[derive(Clone, Copy)]
pub(crate) struct Assigned<'s, 'a> {
    pub(crate) space: &'s LpoSpace<'a>,
    pub(crate) values: &'s [u32],
}

impl<'s, 'a> Precedence for Assigned<'s, 'a> {
    ghost ranks = { λ x. rank_in
        (entries_of x.space.now.arities.now x.space.now.symbols.now x.values.now) };

    ghost filters = { λ x. filter_in
        (entries_of x.space.now.arities.now x.space.now.symbols.now x.values.now) };

    fn rank(&self, symbol: u32) -> u64 {
        match self.space.places.place(symbol) {
            Some(place) => u64::from(value_at(self.values, 2 * place as usize + 1)),
            None => 0,
        }
    }

    fn filter(&self, symbol: u32) -> LentFilter<'_> {
        match self.space.places.place(symbol) {
            Some(place) => filter_at(
                self.space.filters,
                place,
                value_at(self.values, 2 * place as usize),
            ),
            None => LentFilter::Keep(&[]),
        }
    }

    fn allocator(&self) -> Option<Global> {
        let filters = self.space.filters.first()?;
        Some(*filters.allocator())
    }
}

/// The filter of this number of the symbol at this place.
fn filter_at(filters: &[Vec<Filter>], place: u32, number: u32) -> LentFilter<'_>
    ensures { lent_filter result ≡ unwrap_or
        (slice_get (unwrap_or (slice_get (map plain_filters filters.now) place) []) number)
        (Keep []) }
{
    match filters.get(place as usize) {
        Some(filters) => filter_of(filters, number),
        None => LentFilter::Keep(&[]),
    }
}

/// The filter of this number; behind them the one that keeps nothing.
fn filter_of(filters: &[Filter], number: u32) -> LentFilter<'_>
    ensures { lent_filter result
        ≡ unwrap_or (slice_get (map plain_filter filters.now) number) (Keep []) }
{
    match filters.get(number as usize) {
        Some(filter) => filter.lend(),
        None => LentFilter::Keep(&[]),
    }
}
