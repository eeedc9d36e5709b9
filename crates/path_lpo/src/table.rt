ghost use Rattle.std.specs.Prelude.{◌≡◌, ◌≢◌, ℕ, ◌++◌, ◌∷◌, [], map, IfOk, IfErr, OnOk, option_map, option_copied};
ghost use Rattle.pair_order.specs.Entries.{entry_of};
ghost use Rattle.pair_order.specs.FirstFault.{IsFirstFault, IsFirstOfEntry};
ghost use Rattle.path_lpo.specs.Table.{symbol_of};
ghost use Rattle.path_lpo.specs.Plain.{plain};
ghost use Rattle.path_lpo.specs.Faults.{HasFaultAt, IsEntryFault, number};
ghost use Rattle.path_lpo.specs.declared.faults.TableFault.{TableFault as Fault};

use crate::{LpoEntry, TableFault};
use pair_order::SymbolIndex;
use std::alloc::Global;
use std::marker::Model;
use trs_core::OutOfMemory;

/// A path order: for some symbols their ranks and filters. Contracts see the list of the entries.
#[derive(Drop)]
pub struct Lpo {
    entries: Vec<LpoEntry>,
    symbols: SymbolIndex,
}

impl Model for Lpo {
    ghost use Rattle.std.specs.Prelude.{◌≡◌, ℕ, List, map};
    ghost use Rattle.path_lpo.specs.Table.{PathEntry, symbol_of};

    ghost Value = { List PathEntry };

    ghost use Rattle.path_lpo.specs.Plain.{plain};

    ghost view = { λ t. map plain t.entries.items };

    ghost invariant = { λ t. t.symbols ≡ map symbol_of (map plain t.entries.items) };
}

impl Lpo {
    /// The order of these entries, or its first fault: entries in order, and of one the least number.
    pub fn new(alloc: Global, entries: Vec<LpoEntry>) -> Result<Lpo, TableFault>
        ensures entries { IfOk result (λ order. order ≡ map plain entries.items) }
        ensures faultless { IfOk result (λ _. (k : ℕ) (fault : Fault) →
            HasFaultAt (map plain entries.items) k fault → ⊥) }
        ensures fault { IfErr result (λ fault. fault ≢ TableFault.OutOfMemory →
            IsFirstFault (HasFaultAt (map plain entries.items)) number fault) }
    {
        let mut symbols = SymbolIndex::new(alloc);
        for entry in &entries {
            add_entry(&mut symbols, entry)?;
        }
        Ok(Lpo { entries, symbols })
    }

    /// The entries, as they were handed in.
    pub fn entries(&self) -> &[LpoEntry]
        ensures { map plain result.now ≡ self.now }
    {
        &self.entries
    }

    /// An order with the same entries.
    pub fn copy(&self, alloc: Global) -> Result<Lpo, OutOfMemory>
        ensures { IfOk result (λ order. order ≡ self.now) }
    {
        let mut entries = Vec::with_capacity(alloc, self.entries.len())?;
        for entry in &self.entries {
            entries.push(entry.copy(alloc)?)?;
        }
        // The entries have no fault, so only memory can have run out.
        match Lpo::new(alloc, entries) {
            Ok(order) => Ok(order),
            Err(_) => Err(OutOfMemory),
        }
    }

    /// The allocator of the entries.
    pub(crate) fn allocator(&self) -> Global {
        *self.entries.allocator()
    }

    pub(crate) fn entry(&self, symbol: u32) -> Option<&LpoEntry>
        ensures { option_map plain (option_copied result) ≡ entry_of symbol_of self.now symbol }
    {
        match self.symbols.place(symbol) {
            Some(place) => self.entries.get(place),
            None => None,
        }
    }
}

/// Adds the symbol of an entry, unless the entry has a fault.
fn add_entry(symbols: &mut SymbolIndex, entry: &LpoEntry) -> Result<(), TableFault>
    ensures symbols { OnOk result (symbols.new ≡ symbols.old ++ entry.now.symbol ∷ []) }
    ensures faultless { IfOk result (λ _. (fault : Fault) →
        IsEntryFault symbols.old (plain entry.now) fault → ⊥) }
    ensures fault { IfErr result (λ fault. fault ≢ TableFault.OutOfMemory →
        IsFirstOfEntry IsEntryFault number symbols.old (plain entry.now) fault) }
{
    if !symbols.add(entry.symbol)? {
        return Err(TableFault::Twice(entry.symbol));
    }
    if !entry.filter.is_proper() {
        return Err(TableFault::BadFilter(entry.symbol));
    }
    Ok(())
}
