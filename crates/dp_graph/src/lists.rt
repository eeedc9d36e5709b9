//! Lists of places, one for each place. A place in a list takes four bytes.
ghost use Rattle.std.specs.Prelude.{◌≡◌, ◌<◌, IfOk, OnOk, length};
ghost use Rattle.dp_graph.specs.GraphConditions.{lists_of};
ghost use Rattle.dp_graph.specs.PlaceLists.{AreEmpty, PutsBehind};

use std::alloc::Global;
use trs_core::OutOfMemory;

/// So many lists without places.
pub(crate) fn empty_lists(alloc: Global, n: usize) -> Result<Vec<Vec<u32>>, OutOfMemory>
    ensures { IfOk result (λ lists. AreEmpty n (lists_of lists.items)) }
{
    let mut lists = Vec::with_capacity(alloc, n)?;
    let mut k = 0;
    while k < n {
        lists.push(Vec::new(alloc))?;
        k += 1;
    }
    Ok(lists)
}

/// Puts a place behind those of list number `k`.
pub(crate) fn put_behind(
    lists: &mut Vec<Vec<u32>>,
    k: usize,
    place: usize,
) -> Result<(), OutOfMemory>
    requires { k < length lists.old.items }
    ensures { OnOk result
        (PutsBehind (lists_of lists.old.items) (lists_of lists.new.items) k place) }
{
    let place = kept(place)?;
    let list = &mut lists[k];
    list.push(place)?;
    Ok(())
}

/// A place as lists keep it. More places than there are numbers of four bytes have no room.
pub(crate) fn kept(place: usize) -> Result<u32, OutOfMemory>
    ensures { IfOk result (λ number. number ≡ place) }
{
    if place > u32::MAX as usize {
        return Err(OutOfMemory);
    }
    Ok(place as u32)
}
