//! The finite search for filters and ranks.
ghost use Rattle.std.specs.Prelude.{◌≡◌, ◌<◌, ◌+◌, ◌*◌, ◌^◌, ◌++◌, length, map};
ghost use Rattle.order_search.specs.Slots.{puzzle_of};
ghost use Rattle.order_search.specs.OrderSpace.{AreCovered, arity_with_mark};
ghost use Rattle.order_search.specs.Distinct.{AreDistinct};
ghost use Rattle.lpo_find.specs.Filters.{plain_filters, filters_of};
ghost use Rattle.lpo_find.specs.LpoRow.{path_search};
ghost use Rattle.lpo_find.specs.LpoLawful.{lpo_lawful};

use crate::assigned::Assigned;
use crate::comparing::{falls_weakly, some_falls_strictly};
use crate::filters::filter_count;
use assign_search::{OutOfMemory, Space};
use order_search::ends::end_of_rule;
use order_search::placing::SymbolPlaces;
use order_search::{LentRule, arity_of, falling_at, occurs_in_rule};
use path_lpo::Filter;
use std::alloc::Global;

/// How many ranks there are.
const RANKS: u32 = 8;

/// The symbols, of which each has a slot for its filter and one for its rank, with their places and
/// all filters of each; and the rules and marked pairs that are to fall.
#[derive(Drop)]
pub(crate) struct LpoSpace<'a> {
    pub(crate) arities: &'a [u8],
    pub(crate) symbols: &'a [u32],
    pub(crate) places: &'a SymbolPlaces<'a>,
    pub(crate) filters: &'a [Vec<Filter>],
    pub(crate) rules: &'a [LentRule<'a>],
    pub(crate) pairs: &'a [LentRule<'a>],
    pub(crate) ghost placed: { places.now ≡ symbols.now },
    pub(crate) ghost filters_are: { map plain_filters filters.now
        ≡ map (λ f. filters_of (arity_with_mark arities.now f)) symbols.now },
    pub(crate) ghost distinct: { AreDistinct symbols.now },
    pub(crate) ghost covered: { AreCovered symbols.now (rules.now ++ pairs.now) },
    pub(crate) ghost few_symbols: { 2 * length symbols.now < 2 ^ 32 },
    pub(crate) ghost few_falling: { length rules.now + length pairs.now + 1 < 2 ^ 32 },
}

impl<'a> Space for LpoSpace<'a> {
    ghost puzzle = { λ x. puzzle_of
        (path_search x.arities.now x.symbols.now x.rules.now x.pairs.now) };

    ghost lawful = { λ x. lpo_lawful
        (arity_with_mark x.arities.now) x.symbols.now x.rules.now x.pairs.now };

    fn slots(&self) -> u32 {
        2 * self.symbols.len() as u32
    }

    fn domain(&self, slot: u32) -> u32 {
        let symbol = self.symbols[(slot / 2) as usize];
        if slot % 2 == 0 {
            filter_count(arity_of(self.arities, symbol))
        } else {
            RANKS
        }
    }

    fn constraints(&self) -> u32 {
        self.rules.len() as u32 + self.pairs.len() as u32 + 1
    }

    fn uses(&self, c: u32, slot: u32) -> bool {
        let symbol = self.symbols[(slot / 2) as usize];
        match falling_at(self.rules, self.pairs, c as usize) {
            Some(rule) => occurs_in_rule(symbol, rule),
            None => true,
        }
    }

    fn reach(&self, c: u32) -> u32 {
        match falling_at(self.rules, self.pairs, c as usize) {
            Some(rule) => 2 * end_of_rule(self.places, rule),
            None => self.slots(),
        }
    }

    fn holds(&self, _alloc: Global, c: u32, values: &[u32]) -> Result<bool, OutOfMemory> {
        let order = Assigned {
            space: self,
            values,
        };
        match falling_at(self.rules, self.pairs, c as usize) {
            Some(rule) => Ok(falls_weakly(&order, rule)),
            None => Ok(some_falls_strictly(&order, self.pairs)),
        }
    }
}
