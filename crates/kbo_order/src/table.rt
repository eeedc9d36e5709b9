ghost use Rattle.std.specs.Prelude.{◌≡◌, ◌≢◌, ◌↔◌, ℕ, ◌++◌, ◌∷◌, [], map, IfOk, IfErr, OnOk, IsTrue, option_copied};
ghost use Rattle.pair_order.specs.Entries.{entry_of};
ghost use Rattle.pair_order.specs.FirstFault.{IsFirstOfEntry};
ghost use Rattle.kbo_order.specs.Table.{symbol_of, arity_in, weight_in, rank_in};
ghost use Rattle.order_theory.specs.KnuthBendix.{IsAdmissible};
ghost use Rattle.kbo_order.specs.Faults.{IsFaultless, IsFirstFault, IsEntryFault, IsOnTop, IsRankedBelow, number};
ghost use Rattle.kbo_order.specs.declared.faults.KboFault.{KboFault as Fault};

use crate::{KboEntry, KboFault};
use pair_order::SymbolIndex;
use std::alloc::Global;
use trs_core::{GREATEST_NUMBER, OutOfMemory};

/// A Knuth-Bendix order: for some symbols their arities, weights and ranks. It is admissible by its
/// type.
#[derive(Drop)]
pub struct Kbo {
    entries: Vec<KboEntry>,
    symbols: SymbolIndex,
    ghost indexed: { symbols ≡ map symbol_of entries.items },
    ghost admissible: { IsAdmissible (arity_in entries.items) (weight_in entries.items)
        (rank_in entries.items) },
}

impl Kbo {
    /// The order of these entries, or its first fault: entries in order, and of one the least number,
    /// but symbols that are not on top come after all others.
    pub fn new(alloc: Global, entries: Vec<KboEntry>) -> Result<Kbo, KboFault>
        ensures entries { IfOk result (λ order. order.entries.items ≡ entries.items) }
        ensures faultless { IfOk result (λ _. IsFaultless entries.items) }
        ensures fault { IfErr result (λ fault. fault ≢ KboFault.OutOfMemory →
            IsFirstFault entries.items fault) }
    {
        let mut symbols = SymbolIndex::new(alloc);
        for entry in &entries {
            add_entry(&mut symbols, entry)?;
        }
        for entry in &entries {
            if !is_on_top(entry, &entries) {
                return Err(KboFault::UnaryNotTop(entry.symbol));
            }
        }
        Ok(Kbo { entries, symbols })
    }

    /// The entries, as they were handed in.
    pub fn entries(&self) -> &[KboEntry]
        ensures { result.now ≡ self.now.entries.items }
    {
        &self.entries
    }

    /// An order with the same entries.
    pub fn copy(&self, alloc: Global) -> Result<Kbo, OutOfMemory>
        ensures { IfOk result (λ order. order.entries.items ≡ self.now.entries.items) }
    {
        let entries = Vec::from_slice(alloc, &self.entries)?;
        // The entries have no fault, so only memory can have run out.
        match Kbo::new(alloc, entries) {
            Ok(order) => Ok(order),
            Err(_) => Err(OutOfMemory),
        }
    }

    pub(crate) fn entry(&self, symbol: u32) -> Option<&KboEntry>
        ensures { option_copied result ≡ entry_of symbol_of self.now.entries.items symbol }
    {
        match self.symbols.place(symbol) {
            Some(place) => self.entries.get(place),
            None => None,
        }
    }
}

/// Adds the symbol of an entry, unless the entry has a fault.
fn add_entry(symbols: &mut SymbolIndex, entry: &KboEntry) -> Result<(), KboFault>
    ensures symbols { OnOk result (symbols.new ≡ symbols.old ++ entry.now.symbol ∷ []) }
    ensures faultless { IfOk result (λ _. (fault : Fault) →
        IsEntryFault symbols.old entry.now fault → ⊥) }
    ensures fault { IfErr result (λ fault. fault ≢ KboFault.OutOfMemory →
        IsFirstOfEntry IsEntryFault number symbols.old entry.now fault) }
{
    if !symbols.add(entry.symbol)? {
        return Err(KboFault::Twice(entry.symbol));
    }
    if entry.arity == 0 {
        if entry.weight == 0 {
            return Err(KboFault::ConstantTooLight(entry.symbol));
        }
    }
    if entry.weight > GREATEST_NUMBER {
        return Err(KboFault::TooBig(entry.symbol));
    }
    Ok(())
}

/// Whether the entry, if it has one argument and weight 0, is ranked above each other one.
fn is_on_top(entry: &KboEntry, entries: &[KboEntry]) -> bool
    ensures { IsTrue result ↔ IsOnTop entries.now entry.now }
{
    if entry.arity != 1 {
        return true;
    }
    if entry.weight != 0 {
        return true;
    }
    for other in entries {
        if !is_ranked_below(other, entry) {
            return false;
        }
    }
    true
}

fn is_ranked_below(other: &KboEntry, entry: &KboEntry) -> bool
    ensures { IsTrue result ↔ IsRankedBelow entry.now other.now }
{
    other.symbol == entry.symbol || other.rank < entry.rank
}
