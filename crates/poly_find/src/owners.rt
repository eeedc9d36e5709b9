//! Which symbol each slot is of.
ghost use Rattle.std.specs.Prelude.{◌≡◌, ◌≤◌, ◌*◌, ◌++◌, map, length, IfOk, OnOk};
ghost use Rattle.order_search.specs.OrderSpace.{parts_from};
ghost use Rattle.poly_find.specs.PolyPlaces.{owner_of, owners_of};

use order_search::arity_of;
use std::alloc::Global;
use trs_core::OutOfMemory;

/// The symbol of each slot: each symbol once for its constant and for each of its arguments.
pub(crate) fn owners(
    alloc: Global,
    arities: &[u8],
    symbols: &[u32],
) -> Result<Vec<u32>, OutOfMemory>
    ensures owners { IfOk result (λ owners.
        owners.items ≡ owners_of arities.now symbols.now) }
    ensures few { IfOk result (λ owners. length owners.items ≤ 256 * length symbols.now) }
{
    let mut owners = Vec::new(alloc);
    for f in symbols {
        add_owner(&mut owners, *f, arity_of(arities, *f) + 1)?;
    }
    Ok(owners)
}

fn add_owner(owners: &mut Vec<u32>, f: u32, parts: u32) -> Result<(), OutOfMemory>
    ensures { OnOk result (owners.new.items
        ≡ owners.old.items ++ map owner_of (parts_from f 0 parts)) }
{
    for _part in 0..parts {
        owners.push(f)?;
    }
    Ok(())
}
