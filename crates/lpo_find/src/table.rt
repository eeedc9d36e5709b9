//! The path order that values of the slots say.
ghost use Rattle.std.specs.Prelude.{◌≡◌, ◌<◌, IfOk};
ghost use Rattle.path_lpo.specs.Plain.{plain};
ghost use Rattle.order_search.specs.Distinct.{AreDistinct};
ghost use Rattle.lpo_find.specs.LpoSpace.{filter_number};
ghost use Rattle.lpo_find.specs.LpoRow.{entries_of};

use crate::filters::filter_number;
use crate::space::LpoSpace;
use order_search::{Readable, arity_of, value_at};
use path_lpo::{Lpo, LpoEntry};
use std::alloc::Global;
use trs_core::OutOfMemory;

impl<'a> Readable for LpoSpace<'a> {
    ghost use Rattle.order_search.specs.OrderOver.{IsOrderOver};
    ghost use Rattle.lpo_find.specs.LpoRow.{path_entry, path_search};

    type Found = Lpo;

    ghost finds = { λ x budget order. IsOrderOver (path_entry x.arities.now)
        (path_search x.arities.now x.symbols.now x.rules.now x.pairs.now)
        budget x.symbols.now order };

    fn read(&self, alloc: Global, values: &[u32]) -> Result<Lpo, OutOfMemory> {
        order_of(alloc, self.arities, self.symbols, values)
    }
}

/// The order by which each symbol has the filter and the rank of its two slots.
fn order_of(
    alloc: Global,
    arities: &[u8],
    symbols: &[u32],
    values: &[u32],
) -> Result<Lpo, OutOfMemory>
    requires { AreDistinct symbols.now }
    ensures { IfOk result (λ order. order ≡ entries_of arities.now symbols.now values.now) }
{
    let mut entries = Vec::with_capacity(alloc, symbols.len())?;
    for (i, f) in symbols.iter().enumerate() {
        let filter = value_at(values, 2 * i);
        let rank = value_at(values, 2 * i + 1);
        entries.push(entry(alloc, arity_of(arities, *f), *f, filter, rank)?)?;
    }
    // The entries have no fault, so only memory can have run out.
    match Lpo::new(alloc, entries) {
        Ok(order) => Ok(order),
        Err(_) => Err(OutOfMemory),
    }
}

fn entry(
    alloc: Global,
    arity: u32,
    symbol: u32,
    filter: u32,
    rank: u32,
) -> Result<LpoEntry, OutOfMemory>
    requires { arity < 256 }
    ensures { IfOk result (λ entry. plain entry
        ≡ record { symbol = symbol; rank = rank; filter = filter_number arity filter }) }
{
    Ok(LpoEntry {
        symbol,
        rank: u64::from(rank),
        filter: filter_number(alloc, arity, filter)?,
    })
}
