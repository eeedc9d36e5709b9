//! The root symbols of pairs.
ghost use Rattle.std.specs.Prelude.{◌≡◌, ◌↔◌, ◌⊎◌, ℕ, IfOk, OnOk, IsTrue};
ghost use Rattle.std.specs.Ordering.{nat_cmp};
ghost use Rattle.std.specs.BTreeSet.{contains, keys, IsOrdered};
ghost use Rattle.trs_defs.specs.Member.{In};
ghost use Rattle.dp_core.specs.SubtermConditions.{roots_of};
ghost use Rattle.order_search.specs.Ascending.{AreAscending};

use dp_core::{Side, Sides};
use std::alloc::Global;
use std::collections::BTreeSet;
use trs_core::OutOfMemory;

/// The numbers of the roots of both sides, without the marks, ascending.
pub fn roots(alloc: Global, pairs: &[Sides]) -> Result<Vec<u32>, OutOfMemory>
    ensures { IfOk result (λ roots. AreAscending (roots_of pairs.now) roots.items) }
{
    let set = root_set(alloc, pairs)?;
    list_members(alloc, &set)
}

fn root_set(alloc: Global, pairs: &[Sides]) -> Result<BTreeSet<u32>, OutOfMemory>
    ensures { IfOk result (λ set. (f : ℕ) →
        IsTrue (contains nat_cmp set f) ↔ In f (roots_of pairs.now)) }
{
    let mut set = BTreeSet::new(alloc);
    for pair in pairs {
        add(&mut set, from_root(pair))?;
        add(&mut set, to_root(pair))?;
    }
    Ok(set)
}

/// The root of the left side, without its mark.
pub fn from_root(pair: &Sides) -> u32
    ensures { result ≡ pair.now.from.symbol }
{
    root(&pair.from)
}

/// The root of the right side, without its mark.
pub fn to_root(pair: &Sides) -> u32
    ensures { result ≡ pair.now.to.symbol }
{
    root(&pair.to)
}

fn root(side: &Side) -> u32
    ensures { result ≡ side.now.symbol }
{
    side.symbol
}

/// Puts one number more into a set.
pub fn add(set: &mut BTreeSet<u32>, f: u32) -> Result<(), OutOfMemory>
    ensures { OnOk result ((g : ℕ) → IsTrue (contains nat_cmp set.new g)
        ↔ (IsTrue (contains nat_cmp set.old g) ⊎ (g ≡ f))) }
{
    set.insert(f)?;
    Ok(())
}

/// The members of a set, ascending.
pub fn list_members(alloc: Global, set: &BTreeSet<u32>) -> Result<Vec<u32>, OutOfMemory>
    ensures members { IfOk result (λ members. members.items ≡ keys set.now) }
    ensures ordered { IsOrdered nat_cmp set.now }
{
    let mut members = Vec::with_capacity(alloc, set.len())?;
    for f in set {
        members.push(*f)?;
    }
    Ok(members)
}
