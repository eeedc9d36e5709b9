ghost use Rattle.std.specs.Prelude.{◌≡◌, IfOk};
ghost use Rattle.std.specs.Option.{option_copied, option_map};
ghost use Rattle.trs_core.specs.View.{tree};
ghost use Rattle.dp_core.specs.SubtermConditions.{place_for, projected};

use crate::Side;
use std::alloc::Global;
use std::collections::BTreeMap;
use std::marker::Model;
use trs_core::{OutOfMemory, Term};

/// A projection with its places by symbol. It is made once for a step, and lends the entries.
/// Contracts see the entries.
#[derive(Drop)]
pub(crate) struct Places<'a> {
    entries: &'a [(u32, u8)],
    by_symbol: BTreeMap<u32, u8>,
}

impl<'a> Model for Places<'a> {
    ghost use Rattle.std.specs.Prelude.{ℕ, List};
    ghost use Rattle.dp_core.specs.Places.{ArePlacesOf};

    ghost Value = { List (ℕ × ℕ) };

    ghost view = { λ a. a.entries.now };

    ghost invariant = { λ a. ArePlacesOf a.entries.now a.by_symbol };
}

impl<'a> Places<'a> {
    /// The places of a projection. The first entry for a symbol counts.
    pub(crate) fn new(alloc: Global, entries: &'a [(u32, u8)]) -> Result<Places<'a>, OutOfMemory>
        ensures { IfOk result (λ places. places ≡ entries.now) }
    {
        let mut by_symbol = BTreeMap::new(alloc);
        let mut i = entries.len();
        while i > 0 {
            i -= 1;
            let entry = &entries[i];
            by_symbol.insert(entry.0, entry.1)?;
        }
        Ok(Places { entries, by_symbol })
    }

    /// The place for a symbol, in logarithmic time.
    pub(crate) fn place_for(&self, f: u32) -> Option<u8>
        ensures { result ≡ place_for self.now f }
    {
        match self.by_symbol.get(&f) {
            Some(place) => Some(*place),
            None => None,
        }
    }
}

/// The argument to which a side is projected.
pub(crate) fn project<'a>(projection: &Places, side: &Side<'a>) -> Option<&'a Term>
    ensures { option_map tree (option_copied result) ≡ projected projection.now side.now }
{
    let place = projection.place_for(side.symbol)?;
    if place == 0 {
        return None;
    }
    let args = side.args;
    args.items.get(usize::from(place - 1))
}
