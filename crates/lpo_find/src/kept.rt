//! What large rules share is kept, since many values say the same filters.
ghost use Rattle.std.specs.Prelude.{◌≡◌, ◌<◌, ◌*◌, ◌^◌, ℕ, IfOk, IfSome, IsTrue, get_or, length};
ghost use Rattle.order_search.specs.Distinct.{AreDistinct};
ghost use Rattle.lpo_find.specs.KeptSides.{AreAlwaysTrue, IsKnown, Remembers};

use order_search::value_at;
use path_lpo::SharedPair;
use std::alloc::Global;
use trs_core::OutOfMemory;

/// How many places there are.
const PLACES: usize = 64;

/// What the sides of the rule of some number share, filtered as these values say.
#[derive(Drop)]
pub(crate) struct Sides {
    pub(crate) number: u32,
    pub(crate) values: Vec<u32>,
    pub(crate) shared: SharedPair,
}

/// Sides that were shared. Each rule has a place, where a later one may take over.
#[derive(Drop)]
pub(crate) struct KeptSides {
    pub(crate) places: Vec<Option<Sides>>,
}

impl KeptSides {
    /// Places at which nothing is kept.
    pub(crate) fn new(alloc: Global) -> Result<KeptSides, OutOfMemory>
        ensures { IfOk result (λ kept. AreAlwaysTrue kept.places.items) }
    {
        let mut places = Vec::with_capacity(alloc, PLACES)?;
        for _ in 0..PLACES {
            places.push(None)?;
        }
        Ok(KeptSides { places })
    }

    /// What the sides of a rule share, if it is kept for the filters that the values say.
    pub(crate) fn find(&self, symbols: &[u32], number: u32, values: &[u32]) -> Option<&SharedPair>
        requires few { 2 * length symbols.now < 2 ^ 32 }
        requires distinct { AreDistinct symbols.now }
        ensures { IfSome result (λ shared.
            IsKnown self.now.places.items symbols.now number values.now shared.now) }
    {
        let Some(Some(sides)) = self.places.get(place_of(number)) else {
            return None;
        };
        if sides.number == number && have_same_filters(symbols, &sides.values, values) {
            Some(&sides.shared)
        } else {
            None
        }
    }

    /// Keeps it, and may forget others. Where memory is refused, it is not kept.
    pub(crate) fn keep(&mut self, alloc: Global, number: u32, values: &[u32], shared: SharedPair)
        ensures { Remembers self.old.places.items number values.now shared self.new.places.items }
    {
        if let Ok(values) = Vec::from_slice(alloc, values) {
            self.put(Sides {
                number,
                values,
                shared,
            });
        }
    }

    fn put(&mut self, sides: Sides)
        ensures { Remembers self.old.places.items sides.number sides.values.items sides.shared
            self.new.places.items }
    {
        let place = place_of(sides.number);
        if place < self.places.len() {
            self.places[place] = Some(sides);
        }
    }
}

fn place_of(number: u32) -> usize {
    number as usize % PLACES
}

/// Whether the values of the slots for filters are the same.
fn have_same_filters(symbols: &[u32], values: &[u32], others: &[u32]) -> bool
    requires { 2 * length symbols.now < 2 ^ 32 }
    ensures { IsTrue result → (i : ℕ) → i < length symbols.now →
        get_or values.now (2 * i) 0 ≡ get_or others.now (2 * i) 0 }
{
    for place in 0..symbols.len() {
        if value_at(values, 2 * place) != value_at(others, 2 * place) {
            return false;
        }
    }
    true
}
