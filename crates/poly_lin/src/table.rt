ghost use Rattle.std.specs.Prelude.{◌≡◌, ◌≢◌, ℕ, ◌++◌, ◌∷◌, [], map, IfOk, IfErr, OnOk, option_map, option_copied};
ghost use Rattle.pair_order.specs.Entries.{entry_of, place_among};
ghost use Rattle.pair_order.specs.FirstFault.{IsFirstFault, IsFirstOfEntry};
ghost use Rattle.poly_lin.specs.Table.{symbol_of};
ghost use Rattle.poly_lin.specs.Rows.{polynomial_at};
ghost use Rattle.poly_lin.specs.Plain.{plain};
ghost use Rattle.poly_lin.specs.Faults.{HasFaultAt, IsEntryFault, number, has_big};
ghost use Rattle.poly_lin.specs.declared.faults.TableFault.{TableFault as Fault};

use crate::rows::Row;
use crate::{PAIRING, TableFault};
use pair_order::SymbolIndex;
use std::alloc::Global;
use std::marker::Model;
use trs_core::{GREATEST_NUMBER, OutOfMemory};

/// A linear interpretation: for some symbols their polynomials, `(f, [c0, c1, .., cn])` for
/// c0 + c1 x1 + .. + cn xn. Symbol 8191 stands for x1 + x2. Contracts see the list of the entries.
#[derive(Drop)]
pub struct LinTable {
    entries: Vec<(u32, Vec<u64>)>,
    symbols: SymbolIndex,
}

impl Model for LinTable {
    ghost use Rattle.std.specs.Prelude.{◌≡◌, ℕ, List, map};

    ghost Value = { List (ℕ × List ℕ) };

    ghost use Rattle.poly_lin.specs.Plain.{plain};
    ghost use Rattle.poly_lin.specs.Table.{symbol_of};

    ghost view = { λ t. map plain t.entries.items };

    ghost invariant = { λ t. t.symbols ≡ map symbol_of (map plain t.entries.items) };
}

impl LinTable {
    /// The table of these entries, or its first fault: entries in order, and of one the least number.
    pub fn new(alloc: Global, entries: Vec<(u32, Vec<u64>)>) -> Result<LinTable, TableFault>
        ensures entries { IfOk result (λ table. table ≡ map plain entries.items) }
        ensures faultless { IfOk result (λ _. (k : ℕ) (fault : Fault) →
            HasFaultAt (map plain entries.items) k fault → ⊥) }
        ensures fault { IfErr result (λ fault. fault ≢ TableFault.OutOfMemory →
            IsFirstFault (HasFaultAt (map plain entries.items)) number fault) }
    {
        let mut symbols = SymbolIndex::new(alloc);
        for (symbol, coefficients) in &entries {
            add_entry(&mut symbols, *symbol, coefficients)?;
        }
        Ok(LinTable { entries, symbols })
    }

    /// The entries, as they were handed in.
    pub fn entries(&self) -> &[(u32, Vec<u64>)]
        ensures { map plain result.now ≡ self.now }
    {
        &self.entries
    }

    /// A table with the same entries.
    pub fn copy(&self, alloc: Global) -> Result<LinTable, OutOfMemory>
        ensures { IfOk result (λ table. table ≡ self.now) }
    {
        let mut entries = Vec::with_capacity(alloc, self.entries.len())?;
        for (symbol, coefficients) in &self.entries {
            entries.push((*symbol, Vec::from_slice(alloc, coefficients)?))?;
        }
        // The entries have no fault, so only memory can have run out.
        match LinTable::new(alloc, entries) {
            Ok(table) => Ok(table),
            Err(_) => Err(OutOfMemory),
        }
    }

    /// The number of the entry of a symbol.
    pub(crate) fn place(&self, symbol: u32) -> Option<usize>
        ensures { result ≡ place_among (map symbol_of self.now) symbol }
    {
        self.symbols.place(symbol)
    }

    /// The polynomial that stands at a row.
    pub(crate) fn polynomial_at(&self, row: Row) -> &[u64]
        ensures { result.now ≡ polynomial_at self.now row }
    {
        match row {
            Row::Pairing => &[0, 1, 1],
            Row::Missing => &[],
            Row::Entry(place) => match self.entries.get(place) {
                Some((_, coefficients)) => coefficients,
                None => &[],
            },
        }
    }

    pub(crate) fn entry(&self, symbol: u32) -> Option<&(u32, Vec<u64>)>
        ensures { option_map plain (option_copied result) ≡ entry_of symbol_of self.now symbol }
    {
        match self.symbols.place(symbol) {
            Some(place) => self.entries.get(place),
            None => None,
        }
    }
}

/// Adds the symbol of an entry, unless the entry has a fault.
fn add_entry(symbols: &mut SymbolIndex, symbol: u32, coefficients: &[u64]) -> Result<(), TableFault>
    ensures symbols { OnOk result (symbols.new ≡ symbols.old ++ symbol ∷ []) }
    ensures faultless { IfOk result (λ _. (fault : Fault) →
        IsEntryFault symbols.old (symbol, coefficients.now) fault → ⊥) }
    ensures fault { IfErr result (λ fault. fault ≢ TableFault.OutOfMemory →
        IsFirstOfEntry IsEntryFault number symbols.old (symbol, coefficients.now) fault) }
{
    if symbol == PAIRING {
        return Err(TableFault::Twice(symbol));
    }
    if !symbols.add(symbol)? {
        return Err(TableFault::Twice(symbol));
    }
    if has_big(coefficients) {
        return Err(TableFault::TooBig(symbol));
    }
    Ok(())
}

/// Whether a number passes 2^63 - 1.
pub(crate) fn has_big(numbers: &[u64]) -> bool
    ensures { result ≡ has_big numbers.now }
{
    numbers.iter().any(|n| *n > GREATEST_NUMBER)
}
