//! Where symbols stand among others.
ghost use Rattle.std.specs.Prelude.{◌≡◌, ◌<◌, ◌≤◌, ◌^◌, ℕ, All, IfOk, None, Some, length, get_or, slice_set};
ghost use Rattle.dp_core.specs.pair_order.Entries.{place_among};

use std::alloc::Global;
use std::marker::Model;
use trs_core::OutOfMemory;

/// The place of each of some symbols among them, at hand by the symbol's number. A look-up takes no
/// memory and computes no hash. Contracts see the list of the symbols.
#[derive(Drop)]
pub struct SymbolPlaces<'a> {
    symbols: &'a [u32],
    places: Vec<Option<u32>>,
}

impl<'a> Model for SymbolPlaces<'a> {
    ghost use Rattle.std.specs.Prelude.{ℕ, List};
    ghost use Rattle.order_search.specs.Placed.{ArePlaced};

    ghost Value = { List ℕ };

    ghost view = { λ s. s.symbols.now };

    ghost invariant = { λ s. ArePlaced s.symbols.now s.places.items };
}

impl<'a> SymbolPlaces<'a> {
    /// The places of these symbols; of one that stands there twice the first.
    pub fn of(alloc: Global, symbols: &'a [u32]) -> Result<SymbolPlaces<'a>, OutOfMemory>
        requires { length symbols.now < 2 ^ 32 }
        ensures { IfOk result (λ places. places ≡ symbols.now) }
    {
        let mut places = vec![in alloc; None; end_of(symbols)]?;
        for (i, f) in symbols.iter().enumerate() {
            note(&mut places, *f as usize, i as u32);
        }
        Ok(SymbolPlaces { symbols, places })
    }

    /// The place of a symbol, counted from 0.
    pub fn place(&self, symbol: u32) -> Option<u32>
        ensures { result ≡ place_among self.now symbol }
    {
        match self.places.get(symbol as usize) {
            Some(place) => *place,
            None => None,
        }
    }
}

/// Notes a place at a symbol's number, unless one is noted there.
fn note(places: &mut Vec<Option<u32>>, symbol: usize, place: u32)
    requires { symbol < length places.old.items }
    ensures there { (k : ℕ) → get_or places.old.items symbol None ≡ Some k →
        places.new.items ≡ places.old.items }
    ensures noted { get_or places.old.items symbol None ≡ None →
        places.new.items ≡ slice_set places.old.items symbol (Some place) }
{
    if places[symbol].is_some() {
        return;
    }
    places[symbol] = Some(place);
}

/// A number above each of these.
fn end_of(numbers: &[u32]) -> usize
    ensures { All (λ f. f < result) numbers.now }
{
    let mut end = 0;
    for f in numbers {
        end = past(end, *f);
    }
    end
}

/// A number that is above this one, and at least the other.
fn past(end: usize, f: u32) -> usize
    ensures least { end ≤ result }
    ensures above { f < result }
{
    let next = f as usize + 1;
    if next > end { next } else { end }
}
