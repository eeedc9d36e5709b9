//! The Knuth-Bendix order that values of the slots say.
ghost use Rattle.std.specs.Prelude.{◌≡◌, ◌<◌, ◌+◌, ◌==◌, if◌then◌else◌, IfOk};
ghost use Rattle.order_search.specs.Distinct.{AreDistinct};
ghost use Rattle.kbo_find.specs.KboRow.{entries_of};
ghost use Rattle.kbo_find.specs.KboPlaces.{entry_with};

use crate::space::KboSpace;
use kbo_order::{Kbo, KboEntry};
use order_search::{Readable, arity_of, value_at};
use std::alloc::Global;
use trs_core::OutOfMemory;

impl<'a> Readable for KboSpace<'a> {
    ghost use Rattle.order_search.specs.OrderOver.{IsOrderOver};
    ghost use Rattle.kbo_find.specs.KboRow.{kbo_entry, kbo_search};

    type Found = Kbo;

    ghost finds = { λ x budget order. IsOrderOver (kbo_entry x.arities.now)
        (kbo_search x.arities.now x.symbols.now x.rules.now x.pairs.now)
        budget x.symbols.now order.entries.items };

    fn read(&self, alloc: Global, values: &[u32]) -> Result<Kbo, OutOfMemory> {
        order_of(alloc, self.arities, self.symbols, values)
    }
}

/// The order by which each symbol has the weight and the rank of its two slots.
fn order_of(
    alloc: Global,
    arities: &[u8],
    symbols: &[u32],
    values: &[u32],
) -> Result<Kbo, OutOfMemory>
    requires { AreDistinct symbols.now }
    ensures { IfOk result (λ order. order.entries.items ≡ entries_of arities.now symbols.now values.now) }
{
    let entries = entries(alloc, arities, symbols, values)?;
    // The entries have no fault, so only memory can have run out.
    match Kbo::new(alloc, entries) {
        Ok(order) => Ok(order),
        Err(_) => Err(OutOfMemory),
    }
}

fn entries(
    alloc: Global,
    arities: &[u8],
    symbols: &[u32],
    values: &[u32],
) -> Result<Vec<KboEntry>, OutOfMemory>
    requires { AreDistinct symbols.now }
    ensures { IfOk result (λ entries. entries.items ≡ entries_of arities.now symbols.now values.now) }
{
    let mut entries = Vec::with_capacity(alloc, symbols.len())?;
    for (i, f) in symbols.iter().enumerate() {
        let weight = value_at(values, 2 * i);
        let rank = value_at(values, 2 * i + 1);
        entries.push(entry(arity_of(arities, *f), *f, weight, rank))?;
    }
    Ok(entries)
}

fn entry(arity: u32, symbol: u32, weight: u32, rank: u32) -> KboEntry
    requires { arity < 256 }
    ensures { result ≡ entry_with arity symbol weight rank }
{
    KboEntry {
        symbol,
        arity: arity as u8,
        weight: weight_of(arity, weight),
        rank: u64::from(rank),
    }
}

/// The weight that a value says: those of a constant begin with 1.
pub(crate) fn weight_of(arity: u32, value: u32) -> u64
    ensures { result ≡ (if arity == 0 then value + 1 else value) }
{
    if arity == 0 {
        u64::from(value) + 1
    } else {
        u64::from(value)
    }
}
