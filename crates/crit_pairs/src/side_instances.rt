//! Instances of right sides whose sizes are known.
ghost use Rattle.std.specs.Prelude.{◌≡◌, ◌≤◌, ◌<◌, ◌+◌, All, IfOk, IfSome, IfNone, IsTrue, false};
ghost use Rattle.trs_defs.specs.Renaming.{shifted};
ghost use Rattle.trs_defs.specs.Size.{size_of, within_limits};
ghost use Rattle.trs_defs.specs.Substitution.{apply};
ghost use Rattle.trs_core.specs.SystemLimits.{HasSmallVariables};
ghost use Rattle.trs_core.specs.View.{tree};
ghost use Rattle.trs_unify.specs.Bindings.{stopped_size, stopped_depth};
ghost use Rattle.crit_pairs.specs.Meeting.{solution};
ghost use Rattle.crit_pairs.specs.Overlapping.{substitution};
ghost use Rattle.crit_pairs.specs.SideSizes.{IsSizeOf, IsSmallOf, nodes_of_instance};

use crate::binding_table::Bindings;
use crate::overlapping::OverlapUnifier;
use crate::side_sizes::SideSize;
use crate::solved;
use std::alloc::Global;
use trs_core::{GREATEST_DEPTH, MOST_NODES, OutOfMemory, Term};
use trs_unify::rename_apart;

/// The number of nodes of the instance of a right side, whose variables behind `from` are meant: 0, or
/// the number by which inner rules are renamed apart. `None` where the instance passes the limits on
/// computed terms.
pub(crate) fn small_instance(
    alloc: Global,
    unifier: &OverlapUnifier,
    side: &Term,
    size: &SideSize,
    from: u32,
) -> Result<Option<u64>, OutOfMemory>
    requires size { IsSizeOf (tree side.now) size.now }
    requires variables { HasSmallVariables (tree side.now) }
    requires from { from ≤ 65536 }
    ensures large { IfOk result (λ found. IfNone found (within_limits
        (apply (substitution unifier.now) (shifted from (tree side.now))) ≡ false)) }
    ensures small { IfOk result (λ found. IfSome found (IsSmallOf
        (apply (substitution unifier.now) (shifted from (tree side.now))))) }
{
    match unifier {
        OverlapUnifier::Bound(bindings) => Ok(bound_instance(bindings, side, size, from)),
        OverlapUnifier::Shared(found) => {
            if from == 0 {
                return Ok(found.small_size(side));
            }
            let apart = rename_apart(alloc, side, from)?;
            Ok(found.small_size(&apart))
        }
    }
}

/// The same by bindings. An instance with few nodes is not deep.
fn bound_instance(bindings: &Bindings, side: &Term, size: &SideSize, from: u32) -> Option<u64>
    requires size { IsSizeOf (tree side.now) size.now }
    requires variables { HasSmallVariables (tree side.now) }
    requires from { from ≤ 65536 }
    ensures large { IfNone result (within_limits
        (apply (solution bindings.now) (shifted from (tree side.now))) ≡ false) }
    ensures small { IfSome result (IsSmallOf
        (apply (solution bindings.now) (shifted from (tree side.now)))) }
{
    let nodes = instance_size(bindings, side, size, from);
    if nodes <= GREATEST_DEPTH {
        return Some(nodes);
    }
    if nodes <= MOST_NODES && instance_depth(bindings, side, from) <= GREATEST_DEPTH {
        Some(nodes)
    } else {
        None
    }
}

/// The number of nodes of an instance, by the terms of the variables.
fn instance_size(bindings: &Bindings, side: &Term, size: &SideSize, from: u32) -> u64
    requires size { IsSizeOf (tree side.now) size.now }
    requires variables { HasSmallVariables (tree side.now) }
    requires from { from ≤ 65536 }
    ensures { result ≡ stopped_size
        (apply (solution bindings.now) (shifted from (tree side.now))) }
{
    let mut total = size.symbols;
    for v in &size.variables {
        let x = Term::Var(from + *v);
        total = total.saturating_add(solved::size(bindings, &x, bindings.levels));
    }
    total
}

/// The depth of an instance. The side is walked.
fn instance_depth(bindings: &Bindings, side: &Term, from: u32) -> u64
    requires variables { HasSmallVariables (tree side.now) }
    requires from { from ≤ 65536 }
    ensures { result ≡ stopped_depth
        (apply (solution bindings.now) (shifted from (tree side.now))) }
{
    match side {
        Term::Var(v) => {
            let x = Term::Var(from + *v);
            solved::depth(bindings, &x, bindings.levels)
        }
        Term::App(_, args) => {
            let mut deepest: u64 = 0;
            for arg in &args.items {
                deepest = deepest.max(instance_depth(bindings, arg, from));
            }
            deepest.saturating_add(1)
        }
    }
}
