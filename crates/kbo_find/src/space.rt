//! The finite search for weights and ranks.
ghost use Rattle.std.specs.Prelude.{◌≡◌, ◌<◌, ◌*◌, ◌^◌, ◌++◌, ◌||◌, ◌==◌, map, length, slice_get};
ghost use Rattle.order_search.specs.Distinct.{AreDistinct};
ghost use Rattle.order_search.specs.Ends.{end_among};
ghost use Rattle.order_search.specs.Slots.{slot, puzzle_of};
ghost use Rattle.order_search.specs.OrderSpace.{arity_with_mark, concerns};
ghost use Rattle.kbo_find.specs.KboSpace.{kbo_tops, weight_count};
ghost use Rattle.kbo_find.specs.KboRow.{kbo_search};
ghost use Rattle.kbo_find.specs.KboPlaces.{AreFew, asked_of, uses_by};
ghost use Rattle.kbo_find.specs.KboLawful.{kbo_lawful};
ghost use Rattle.kbo_find.specs.Balanced.{rule_of};

use crate::assigned::Assigned;
use crate::balance::Balance;
use crate::comparing::falls;
use crate::tops::{Top, top_at};
use assign_search::{OutOfMemory, Space};
use order_search::ends::{end_of, end_of_rule, later};
use order_search::placing::SymbolPlaces;
use order_search::{LentRule, arity_of, falling_at, occurs_in_rule};
use std::alloc::Global;

/// How many ranks there are.
const RANKS: u32 = 8;

/// The symbols, of which each has a slot for its weight and one for its rank, with their places;
/// which are to be above which; and the rules and marked pairs that are to fall, also as balances.
#[derive(Drop)]
pub(crate) struct KboSpace<'a> {
    pub(crate) arities: &'a [u8],
    pub(crate) symbols: &'a [u32],
    pub(crate) places: &'a SymbolPlaces<'a>,
    pub(crate) tops: &'a [Top],
    pub(crate) rules: &'a [LentRule<'a>],
    pub(crate) pairs: &'a [LentRule<'a>],
    pub(crate) balances: &'a [Balance<'a>],
    pub(crate) ghost placed: { places.now ≡ symbols.now },
    pub(crate) ghost distinct: { AreDistinct symbols.now },
    pub(crate) ghost tops_are: { map asked_of tops.now
        ≡ kbo_tops (arity_with_mark arities.now) symbols.now },
    pub(crate) ghost balanced: { map rule_of balances.now ≡ rules.now ++ pairs.now },
    pub(crate) ghost few_symbols: { 2 * length symbols.now < 2 ^ 32 },
    pub(crate) ghost few_constraints: { AreFew tops.now rules.now pairs.now },
}

impl<'a> Space for KboSpace<'a> {
    ghost puzzle = { λ x. puzzle_of
        (kbo_search x.arities.now x.symbols.now x.rules.now x.pairs.now) };

    ghost lawful = { λ x. kbo_lawful x.arities.now x.symbols.now x.rules.now x.pairs.now };

    fn slots(&self) -> u32 {
        2 * self.symbols.len() as u32
    }

    fn domain(&self, slot: u32) -> u32 {
        let symbol = self.symbols[(slot / 2) as usize];
        if slot % 2 == 0 {
            weight_count(arity_of(self.arities, symbol))
        } else {
            RANKS
        }
    }

    fn constraints(&self) -> u32 {
        self.tops.len() as u32 + self.rules.len() as u32 + self.pairs.len() as u32 + 1
    }

    fn uses(&self, c: u32, slot: u32) -> bool {
        let symbol = self.symbols[(slot / 2) as usize];
        match top_at(self.tops, c as usize) {
            Some(top) => concerns(top, symbol),
            None => stands_in(symbol, self.rules, self.pairs, c as usize - self.tops.len()),
        }
    }

    fn reach(&self, c: u32) -> u32 {
        match top_at(self.tops, c as usize) {
            Some(top) => 2 * end_of_top(self.places, top),
            None => match falling_at(self.rules, self.pairs, c as usize - self.tops.len()) {
                Some(rule) => 2 * end_of_rule(self.places, rule),
                None => self.slots(),
            },
        }
    }

    fn holds(&self, _alloc: Global, c: u32, values: &[u32]) -> Result<bool, OutOfMemory> {
        let order = Assigned {
            arities: self.arities,
            places: self.places,
            values,
        };
        match top_at(self.tops, c as usize) {
            Some(top) => Ok(order.is_above(top)),
            None => {
                let number = c as usize - self.tops.len();
                Ok(falls(&order, self.balances, self.rules.len(), number))
            }
        }
    }
}

/// Whether the symbol is one of the two.
fn concerns(top: &Top, symbol: u32) -> bool
    ensures { result ≡ concerns (asked_of top.now) (slot symbol 0) }
{
    symbol == top.unary || symbol == top.other
}

/// One more than the last place of the two, or 0 where none has a place.
fn end_of_top(places: &SymbolPlaces, top: &Top) -> u32
    requires distinct { AreDistinct places.now }
    requires few { length places.now < 2 ^ 32 }
    ensures { result ≡ end_among (λ f. top.now.unary == f || top.now.other == f) places.now }
{
    later(end_of(places, top.unary), end_of(places, top.other))
}

/// How many weights a symbol with so many arguments has.
fn weight_count(arity: u32) -> u32
    ensures { result ≡ weight_count arity }
{
    if arity == 0 { 2 } else { 3 }
}

/// Whether the symbol stands in the rule or pair of this number, or the number is behind them.
fn stands_in(symbol: u32, rules: &[LentRule], pairs: &[LentRule], number: usize) -> bool
    ensures { result ≡ uses_by symbol (slice_get (rules.now ++ pairs.now) number) }
{
    match falling_at(rules, pairs, number) {
        Some(rule) => occurs_in_rule(symbol, rule),
        None => true,
    }
}
