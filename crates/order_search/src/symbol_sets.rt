//! Sets of symbols, as flags at the numbers of the symbols. So a symbol that is there already, as
//! most of a large term are, costs one look.
ghost use Rattle.std.specs.Prelude.{ℕ, ◌≡◌, ◌↔◌, ◌⊎◌, IfOk, OnOk};
ghost use Rattle.order_search.specs.SymbolSets.{Has, AreMembers};

use std::alloc::Global;
use trs_core::OutOfMemory;

/// Puts one symbol more into a set.
pub(crate) fn add(set: &mut Vec<bool>, f: u32) -> Result<(), OutOfMemory>
    ensures { OnOk result
        ((g : ℕ) → Has set.new.items g ↔ (Has set.old.items g ⊎ (g ≡ f))) }
{
    let place = f as usize;
    while set.len() <= place {
        set.push(false)?;
    }
    set[place] = true;
    Ok(())
}

/// The members of a set, ascending.
pub(crate) fn list_members(alloc: Global, set: &[bool]) -> Result<Vec<u32>, OutOfMemory>
    ensures { IfOk result (λ members. AreMembers set.now members.items) }
{
    let mut members = Vec::new(alloc);
    for (place, is_member) in set.iter().enumerate() {
        if *is_member {
            members.push(symbol_at(place)?)?;
        }
    }
    Ok(members)
}

/// The symbol of this number. There are no more symbols than numbers of four bytes.
fn symbol_at(place: usize) -> Result<u32, OutOfMemory>
    ensures { IfOk result (λ f. f ≡ place) }
{
    if place > u32::MAX as usize {
        return Err(OutOfMemory);
    }
    Ok(place as u32)
}
