//! Right sides with no variable: peaks at the root have them whole, as they stand in the system.
ghost use Rattle.std.specs.Prelude.{IfOk, IfSome};
ghost use Rattle.trs_core.specs.View.{tree};
ghost use Rattle.crit_pairs.specs.SideSizes.{IsSizeOf, AreSizes};
ghost use Rattle.crit_pairs.specs.WholeSides.{IsWholeSide, AreWholeSides};

use crate::side_sizes::SideSize;
use std::alloc::Global;
use trs_core::{GREATEST_DEPTH, MOST_NODES, OutOfMemory, Rule, Term};

/// A right side with no variable, which is lent, and its number of nodes.
#[derive(Clone, Copy)]
pub(crate) struct WholeSide<'a> {
    pub term: &'a Term,
    pub size: u64,
}

/// For each rule its right side, if peaks at the root have it whole.
pub(crate) fn whole_sides<'a>(
    alloc: Global,
    rules: &'a [Rule],
    sizes: &[SideSize],
) -> Result<Vec<Option<WholeSide<'a>>>, OutOfMemory>
    requires { AreSizes rules.now sizes.now }
    ensures { IfOk result (λ sides. AreWholeSides rules.now sides.items) }
{
    let mut sides = Vec::with_capacity(alloc, rules.len())?;
    for (k, rule) in rules.iter().enumerate() {
        sides.push(whole_side(&rule.right, &sizes[k]))?;
    }
    Ok(sides)
}

/// The term, if it has no variable and keeps the limits on computed terms. One with few nodes is not
/// deep.
fn whole_side<'a>(t: &'a Term, size: &SideSize) -> Option<WholeSide<'a>>
    requires { IsSizeOf (tree t.now) size.now }
    ensures { IfSome result (IsWholeSide (tree t.now)) }
{
    if !size.is_ground() {
        return None;
    }
    let size = size.symbols;
    if size > MOST_NODES {
        return None;
    }
    if size > GREATEST_DEPTH && t.depth() > GREATEST_DEPTH {
        return None;
    }
    Some(WholeSide { term: t, size })
}
