//! The constraints by the slot that gets its value last.
ghost use Rattle.std.specs.Prelude.{◌≡◌, ◌+◌, ◌<◌, length, map, IfOk, OnOk};
ghost use Rattle.assign_search.specs.Rest.{AreAllGroups, AreEmpty, Joins};

use crate::memory::OutOfMemory;
use crate::space::Space;
use std::alloc::Global;

/// For each number of slots from 0, the constraints whose last slot is the last of so many.
pub(crate) fn groups<S: Space>(alloc: Global, space: &S) -> Result<Vec<Vec<u32>>, OutOfMemory>
    ensures { IfOk result (λ gs. AreAllGroups (S.puzzle space.now) (map (λ g. g.items) gs.items)) }
{
    let mut groups = no_groups(alloc, space.slots())?;
    for c in 0..space.constraints() {
        join(&mut groups, space.reach(c) as usize, c)?;
    }
    Ok(groups)
}

/// A group for each number of slots from 0, with nothing in it.
fn no_groups(alloc: Global, slots: u32) -> Result<Vec<Vec<u32>>, OutOfMemory>
    ensures { IfOk result (λ gs. AreEmpty (slots + 1) (map (λ g. g.items) gs.items)) }
{
    let count = slots as usize + 1;
    let mut groups = Vec::with_capacity(alloc, count)?;
    while groups.len() < count {
        groups.push(Vec::new(alloc))?;
    }
    Ok(groups)
}

/// Puts a constraint behind those of a group.
fn join(groups: &mut Vec<Vec<u32>>, number: usize, c: u32) -> Result<(), OutOfMemory>
    requires { number < length groups.old.items }
    ensures { OnOk result (Joins (map (λ g. g.items) groups.old.items)
        (map (λ g. g.items) groups.new.items) number c) }
{
    let group = &mut groups[number];
    group.push(c)?;
    Ok(())
}
