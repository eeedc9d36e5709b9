//! The weights and ranks that values of the slots say, without a table of their own.
ghost use Rattle.std.specs.Prelude.{◌≡◌, ◌<◌};
ghost use Rattle.order_search.specs.Slots.{table_of};
ghost use Rattle.order_search.specs.OrderSpace.{slots_of, arity_with_mark, is_above};
ghost use Rattle.kbo_find.specs.KboSpace.{weight_by, rank_by};

use crate::table::weight_of;
use crate::tops::Top;
use kbo_order::Weighting;
use order_search::placing::SymbolPlaces;
use order_search::{arity_of, value_at};

/// The weights and ranks by which each symbol has those of its two slots.
#[derive(Clone, Copy)]
pub(crate) struct Assigned<'s, 'a> {
    pub(crate) arities: &'a [u8],
    pub(crate) places: &'a SymbolPlaces<'a>,
    pub(crate) values: &'s [u32],
}

impl<'s, 'a> Weighting for Assigned<'s, 'a> {
    ghost weights = { λ x. weight_by (arity_with_mark x.arities.now)
        (table_of (slots_of (λ _. 2) x.places.now) x.values.now) };

    ghost ranks = { λ x. rank_by (table_of (slots_of (λ _. 2) x.places.now) x.values.now) };

    fn weight(&self, symbol: u32) -> u64 {
        weight_of(arity_of(self.arities, symbol), self.value(symbol, 0))
    }

    fn rank(&self, symbol: u32) -> u64 {
        u64::from(self.value(symbol, 1))
    }
}

impl<'s, 'a> Assigned<'s, 'a> {
    /// Whether the unary symbol has weight 0 only where its rank is greater than the other's.
    pub(crate) fn is_above(&self, top: &Top) -> bool
        ensures { result ≡ is_above
            (table_of (slots_of (λ _. 2) self.now.places.now) self.now.values.now)
            top.now.unary top.now.other }
    {
        if self.value(top.unary, 0) != 0 {
            return true;
        }
        let rank = self.value(top.unary, 1);
        self.value(top.other, 1) < rank
    }

    /// The value of a symbol's weight, which is part 0, or of its rank, which is part 1; 0 where
    /// there is none.
    fn value(&self, symbol: u32, part: usize) -> u32
        requires { part < 2 }
        ensures { result ≡ table_of (slots_of (λ _. 2) self.now.places.now) self.now.values.now
            symbol part }
    {
        match self.places.place(symbol) {
            Some(place) => value_at(self.values, 2 * place as usize + part),
            None => 0,
        }
    }
}
