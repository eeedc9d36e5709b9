ghost use Rattle.std.specs.Prelude.{◌≡◌, ◌++◌, ◌∷◌, [], not, IfOk, IfSome, OnErr, OnOk, Some};
ghost use Rattle.trs_defs.specs.Variable.{is_listed};
ghost use Rattle.pair_order.specs.Entries.{place_among, with_symbol};

use crate::MARK;
use indexmap::IndexSet;
use std::alloc::Global;
use std::marker::Model;
use trs_core::OutOfMemory;

/// How many hints there are for each symbol, at least.
const HINTS_OF_SYMBOL: usize = 4;

/// The most hints.
const MOST_HINTS: usize = 1 << 16;

/// No hint.
const NO_PLACE: u32 = u32::MAX;

/// The symbols of a table's entries, each once, in the order of the entries. Contracts see the list
/// of them.
#[derive(Drop)]
pub struct SymbolIndex {
    symbols: IndexSet<u32>,
    /// Where a symbol may stand. It is looked for there first: comparisons of terms look for a few
    /// symbols again and again.
    hints: Vec<u32>,
}

impl Model for SymbolIndex {
    ghost use Rattle.std.specs.Prelude.{ℕ, List};

    ghost Value = { List ℕ };

    ghost view = { λ s. s.symbols.keys };
}

impl SymbolIndex {
    /// No symbols.
    pub fn new(alloc: Global) -> SymbolIndex
        ensures { result ≡ [] }
    {
        SymbolIndex {
            symbols: IndexSet::new(alloc),
            hints: Vec::new(alloc),
        }
    }

    /// Puts a symbol behind the others, unless it is among them; whether it was put there.
    pub fn add(&mut self, symbol: u32) -> Result<bool, OutOfMemory>
        ensures is_new { IfOk result (λ is_new. is_new ≡ not (is_listed symbol self.old)) }
        ensures symbols { OnOk result (self.new ≡ with_symbol self.old symbol) }
    {
        let is_new = self.symbols.insert(symbol)?;
        if is_new {
            self.hint_at_last(symbol)?;
        }
        Ok(is_new)
    }

    /// The place of a symbol, counted from 0.
    pub fn place(&self, symbol: u32) -> Option<usize>
        ensures { result ≡ place_among self.now symbol }
    {
        if let Some(place) = self.hinted(symbol) {
            return Some(place);
        }
        self.symbols.get_index_of(&symbol)
    }

    /// The place of a symbol, where a hint tells it.
    #[tactic(auto, using(crate::proofs::Placing::place_found))]
    fn hinted(&self, symbol: u32) -> Option<usize>
        ensures { IfSome result (λ place. Some place ≡ place_among self.now symbol) }
    {
        let hint = *self.hints.get(slot_of(symbol, self.hints.len()))?;
        let place = hint as usize;
        let there = *self.symbols.as_slice().get(place)?;
        if there == symbol { Some(place) } else { None }
    }

    /// Adds a hint to the symbol that was put behind the others. Where there are too few hints, all
    /// are made anew.
    fn hint_at_last(&mut self, symbol: u32) -> Result<(), OutOfMemory>
        ensures { OnOk result (self.new ≡ self.old) }
    {
        let count = self.symbols.len();
        if self.hints.len() / HINTS_OF_SYMBOL < count && self.hints.len() < MOST_HINTS {
            self.hints = hints_of(*self.hints.allocator(), self.symbols.as_slice())?;
            return Ok(());
        }
        put_hint(&mut self.hints, symbol, count.saturating_sub(1));
        Ok(())
    }
}

/// Hints to all symbols of a list, and twice as many as these need.
fn hints_of(alloc: Global, symbols: &[u32]) -> Result<Vec<u32>, OutOfMemory> {
    let least = symbols.len().saturating_mul(2 * HINTS_OF_SYMBOL);
    let count = least.min(MOST_HINTS).next_power_of_two();
    let mut hints = vec![in alloc; NO_PLACE; count]?;
    for (place, symbol) in symbols.iter().enumerate() {
        put_hint(&mut hints, *symbol, place);
    }
    Ok(hints)
}

/// Adds a hint, in place of another one that has its slot.
fn put_hint(hints: &mut Vec<u32>, symbol: u32, place: usize) {
    let slot = slot_of(symbol, hints.len());
    if let Some(hint) = hints.get_mut(slot) {
        *hint = place.min(NO_PLACE as usize) as u32;
    }
}

/// The slot of a symbol's hint, where there are so many: beside that of its mark, and other slots for
/// symbols with near numbers.
fn slot_of(symbol: u32, hints: usize) -> usize {
    let beside = symbol.wrapping_mul(2).wrapping_add(symbol / MARK);
    beside as usize & hints.saturating_sub(1)
}
