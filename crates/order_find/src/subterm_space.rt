//! The finite search for the places of a projection.
ghost use Rattle.std.specs.Prelude.{◌≡◌, ◌<◌, ◌^◌, ◌+◌, ◌==◌, ◌||◌, length};
ghost use Rattle.trs_core.specs.SystemLimits.{AreBytes};
ghost use Rattle.order_search.specs.Distinct.{AreDistinct};
ghost use Rattle.order_search.specs.Ends.{end_among};
ghost use Rattle.order_search.specs.Slots.{puzzle_of, table_of};
ghost use Rattle.order_find.specs.SubtermSpace.{subterm_search, subterm_slots};
ghost use Rattle.order_find.specs.SubtermLawful.{subterm_lawful};

use crate::memo::Memo;
use assign_search::{OutOfMemory, Space};
use order_search::ends::{end_of, later};
use order_search::placing::SymbolPlaces;
use order_search::roots::{from_root, to_root};
use order_search::{Sides, value_at};
use std::alloc::Global;

/// The roots of pairs, of which each has a slot, with the slots by symbols, and the pairs.
#[derive(Drop)]
pub(crate) struct SubtermSpace<'a> {
    pub(crate) arities: &'a [u8],
    pub(crate) roots: &'a [u32],
    pub(crate) slots: &'a SymbolPlaces<'a>,
    pub(crate) pairs: &'a [Sides<'a>],
    pub(crate) ghost indexed: { slots.now ≡ roots.now },
    pub(crate) ghost distinct: { AreDistinct roots.now },
    pub(crate) ghost bytes: { AreBytes arities.now },
    pub(crate) ghost few_roots: { length roots.now < 2 ^ 32 },
    pub(crate) ghost few_pairs: { length pairs.now + 1 < 2 ^ 32 },
}

impl<'a> Space for SubtermSpace<'a> {
    ghost puzzle = { λ x. puzzle_of (subterm_search x.arities.now x.roots.now x.pairs.now) };

    ghost lawful = { λ x. subterm_lawful x.arities.now x.roots.now x.pairs.now };

    fn slots(&self) -> u32 {
        self.roots.len() as u32
    }

    fn domain(&self, slot: u32) -> u32 {
        match self.arities.get(self.roots[slot as usize] as usize) {
            Some(arity) => u32::from(*arity),
            None => 0,
        }
    }

    fn constraints(&self) -> u32 {
        self.pairs.len() as u32 + 1
    }

    fn uses(&self, c: u32, slot: u32) -> bool {
        if c as usize == self.pairs.len() {
            return true;
        }
        let pair = &self.pairs[c as usize];
        has_root(pair, self.roots[slot as usize])
    }

    fn reach(&self, c: u32) -> u32 {
        if c as usize == self.pairs.len() {
            return self.slots();
        }
        let pair = &self.pairs[c as usize];
        end_of_pair(self.slots, pair)
    }

    fn holds(&self, alloc: Global, c: u32, values: &[u32]) -> Result<bool, OutOfMemory> {
        Ok(Memo::new(alloc).is_met(self, c, values))
    }
}

impl<'a> SubtermSpace<'a> {
    /// The value of the slot of a root, or 0 where it has none.
    pub(crate) fn value_for(&self, f: u32, values: &[u32]) -> u32
        ensures { result ≡ table_of (subterm_slots self.now.roots.now) values.now f 0 }
    {
        match self.slots.place(f) {
            None => 0,
            Some(slot) => value_at(values, slot as usize),
        }
    }
}

/// One more than the last place of a root of the pair, or 0 where neither has a place.
fn end_of_pair(places: &SymbolPlaces, pair: &Sides) -> u32
    requires distinct { AreDistinct places.now }
    requires few { length places.now < 2 ^ 32 }
    ensures { result
        ≡ end_among (λ f. pair.now.from.symbol == f || pair.now.to.symbol == f) places.now }
{
    later(
        end_of(places, from_root(pair)),
        end_of(places, to_root(pair)),
    )
}

/// Whether a side of the pair has the root.
fn has_root(pair: &Sides, f: u32) -> bool
    ensures { result ≡ (pair.now.from.symbol == f || pair.now.to.symbol == f) }
{
    from_root(pair) == f || to_root(pair) == f
}
