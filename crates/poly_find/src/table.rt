//! The linear interpretation that values of the slots say.
ghost use Rattle.std.specs.Prelude.{◌≡◌, ◌<◌, ◌≤◌, ◌^◌, map, length, IfOk};
ghost use Rattle.order_search.specs.Slots.{table_of};
ghost use Rattle.order_search.specs.OrderSpace.{slots_of};
ghost use Rattle.order_search.specs.Distinct.{AreDistinct};
ghost use Rattle.poly_find.specs.PolyRow.{poly_entry};
ghost use Rattle.poly_find.specs.PolyPlaces.{parts_by, values_at};

use crate::space::PolySpace;
use order_search::{Readable, arity_of, value_at};
use poly_lin::LinTable;
use std::alloc::Global;
use trs_core::OutOfMemory;

impl<'a, 'b> Readable for PolySpace<'a, 'b> {
    ghost use Rattle.order_search.specs.OrderOver.{IsOrderOver};
    ghost use Rattle.poly_find.specs.PolyRow.{poly_entry, poly_search};

    type Found = LinTable;

    ghost finds = { λ x budget table. IsOrderOver (poly_entry x.arities.now)
        (poly_search x.arities.now x.symbols.now x.rules.now x.pairs.now)
        budget x.symbols.now table };

    fn read(&self, alloc: Global, values: &[u32]) -> Result<LinTable, OutOfMemory> {
        interpretation(alloc, self.arities, self.symbols, values)
    }
}

/// The interpretation by which each symbol has the constant and the coefficients of its slots.
fn interpretation(
    alloc: Global,
    arities: &[u8],
    symbols: &[u32],
    values: &[u32],
) -> Result<LinTable, OutOfMemory>
    requires distinct { AreDistinct symbols.now }
    requires few { length symbols.now ≤ 8192 }
    ensures { IfOk result (λ table. table ≡ map (poly_entry arities.now
        (table_of (slots_of (parts_by arities.now) symbols.now) values.now)) symbols.now) }
{
    let mut entries = Vec::with_capacity(alloc, symbols.len())?;
    let mut start: usize = 0;
    for f in symbols {
        let parts = arity_of(arities, *f) + 1;
        entries.push((*f, polynomial(alloc, values, start, parts)?))?;
        start += parts as usize;
    }
    // The entries have no fault, so only memory can have run out.
    match LinTable::new(alloc, entries) {
        Ok(table) => Ok(table),
        Err(_) => Err(OutOfMemory),
    }
}

/// So many values from one slot on.
fn polynomial(
    alloc: Global,
    values: &[u32],
    start: usize,
    parts: u32,
) -> Result<Vec<u64>, OutOfMemory>
    requires { start < 2 ^ 32 }
    ensures { IfOk result (λ coefficients.
        coefficients.items ≡ values_at values.now start parts) }
{
    let mut coefficients = Vec::new(alloc);
    for i in 0..parts {
        coefficients.push(u64::from(value_at(values, start + i as usize)))?;
    }
    Ok(coefficients)
}
