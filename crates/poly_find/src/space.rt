//! The finite search for coefficients.
ghost use Rattle.std.specs.Prelude.{◌≡◌, ◌<◌, ◌≤◌, ◌+◌, ◌^◌, ◌++◌, map, length};
ghost use Rattle.std.specs.Coded.{codes};
ghost use Rattle.trs_defs.specs.Tree.{tree_code};
ghost use Rattle.order_search.specs.Slots.{puzzle_of};
ghost use Rattle.order_search.specs.Distinct.{AreDistinct};
ghost use Rattle.poly_find.specs.PolyRow.{poly_search};
ghost use Rattle.poly_find.specs.PolyPlaces.{owners_of, parts_by, starts};
ghost use Rattle.poly_find.specs.Spans.{AreSpans};
ghost use Rattle.poly_find.specs.RuleSubterms.{AreOfEach};
ghost use Rattle.poly_find.specs.SmallTerms.{has_small_sides};
ghost use Rattle.poly_find.specs.PolyLawful.{poly_lawful};

use crate::comparing::{flag_at, is_weak, some_is_strict};
use crate::spans::{SlotValues, Span, span_at};
use crate::subterms::subterms_at;
use assign_search::{OutOfMemory, Space};
use order_search::ends::end_of_rule;
use order_search::placing::SymbolPlaces;
use order_search::{LentRule, falling_at, occurs_in_rule};
use poly_lin::Subterms;
use std::alloc::Global;

/// How many values a coefficient has.
const VALUES: u32 = 3;

/// The symbols with their places, the symbol of each slot and the slots of each symbol, the rules
/// and marked pairs that are to fall, which of them are small, and the subterms of the others.
#[derive(Drop)]
pub(crate) struct PolySpace<'a, 'b> {
    pub(crate) arities: &'b [u8],
    pub(crate) symbols: &'b [u32],
    pub(crate) places: &'a SymbolPlaces<'b>,
    pub(crate) owners: &'a [u32],
    pub(crate) spans: &'a [Span],
    pub(crate) rules: &'b [LentRule<'b>],
    pub(crate) pairs: &'b [LentRule<'b>],
    pub(crate) small: &'a [bool],
    pub(crate) subterms: &'a [Option<Subterms<'b>>],
    pub(crate) ghost placed: { places.now ≡ symbols.now },
    pub(crate) ghost distinct: { AreDistinct symbols.now },
    pub(crate) ghost few_symbols: { length symbols.now ≤ 8192 },
    pub(crate) ghost owners_are: { owners.now ≡ owners_of arities.now symbols.now },
    pub(crate) ghost spans_are: { AreSpans arities.now symbols.now spans.now },
    pub(crate) ghost small_are: { small.now ≡ map has_small_sides (rules.now ++ pairs.now) },
    pub(crate) ghost subterms_are: { AreOfEach (rules.now ++ pairs.now) subterms.now } by { Prim.hlevel (codes, tree_code) },
    pub(crate) ghost few_slots: { length owners.now < 2 ^ 32 },
    pub(crate) ghost few_falling: { length rules.now + length pairs.now + 1 < 2 ^ 31 },
}

impl<'a, 'b> Space for PolySpace<'a, 'b> {
    ghost puzzle = { λ x. puzzle_of
        (poly_search x.arities.now x.symbols.now x.rules.now x.pairs.now) };

    ghost lawful = { λ x. poly_lawful x.arities.now x.symbols.now x.rules.now x.pairs.now };

    fn slots(&self) -> u32 {
        self.owners.len() as u32
    }

    fn domain(&self, slot: u32) -> u32 {
        VALUES
    }

    fn constraints(&self) -> u32 {
        self.rules.len() as u32 + self.pairs.len() as u32 + 1
    }

    fn uses(&self, c: u32, slot: u32) -> bool {
        let symbol = self.owners[slot as usize];
        match falling_at(self.rules, self.pairs, c as usize) {
            Some(rule) => occurs_in_rule(symbol, rule),
            None => true,
        }
    }

    fn reach(&self, c: u32) -> u32 {
        match falling_at(self.rules, self.pairs, c as usize) {
            Some(rule) => self.slots_of_first(end_of_rule(self.places, rule)),
            None => self.slots(),
        }
    }

    fn holds(&self, alloc: Global, c: u32, values: &[u32]) -> Result<bool, OutOfMemory> {
        let table = SlotValues {
            spans: self.spans,
            values,
        };
        match falling_at(self.rules, self.pairs, c as usize) {
            Some(rule) => {
                let small = flag_at(self.small, c as usize);
                let subterms = subterms_at(self.subterms, c as usize);
                match is_weak(alloc, &table, small, subterms, rule) {
                    Ok(weak) => Ok(weak),
                    Err(_) => Err(OutOfMemory),
                }
            }
            None => Ok(some_is_strict(&table, self.small, self.rules.len(), self.pairs)),
        }
    }
}

impl<'a, 'b> PolySpace<'a, 'b> {
    /// How many slots so many of the symbols have, from the first on.
    fn slots_of_first(&self, count: u32) -> u32
        requires within { count ≤ length self.now.symbols.now }
        requires few { starts (parts_by self.now.arities.now) self.now.symbols.now count < 2 ^ 32 }
        ensures { result ≡ starts (parts_by self.now.arities.now) self.now.symbols.now count }
    {
        if count == 0 {
            return 0;
        }
        let last = self.symbols[count as usize - 1];
        let span = span_at(self.spans, last as usize);
        span.start + span.parts
    }
}
