//! Peaks that are counted, and not made.
ghost use Rattle.std.specs.Prelude.{◌≡◌, ◌≤◌, ◌<◌, Some, All, IfOk, IfErr, IfSome};
ghost use Rattle.trs_defs.specs.Tree.{Tree};
ghost use Rattle.trs_defs.specs.Substitution.{apply};
ghost use Rattle.trs_defs.specs.Position.{subterm_at, replaced_at};
ghost use Rattle.trs_core.specs.SystemLimits.{HasSmallVariables};
ghost use Rattle.trs_core.specs.View.{tree};
ghost use Rattle.crit_pairs.specs.Apart.{renamed_apart};
ghost use Rattle.crit_pairs.specs.Overlapping.{substitution};
ghost use Rattle.crit_pairs.specs.SideSizes.{IsSizeOf, IsSmallOf};
ghost use Rattle.crit_pairs.specs.Sides.{PassesLimit, KeepsLimits, AreCounted};

use crate::PeakFault;
use crate::contracting::contract;
use crate::overlapping::OverlapUnifier;
use crate::side_instances::small_instance;
use crate::side_sizes::SideSize;
use crate::sides::{count_nodes, small_size, within_most};
use std::alloc::Global;
use trs_core::{GREATEST_DEPTH, MOST_NODES, MOST_VARIABLES, OutOfMemory, Rule, Term};

/// The number of nodes of all peaks, where the peaks before have so many and the next one is at
/// this place. The inner rule is not renamed apart yet. No term of the peak is built, but for the
/// reduct where that may be too large or too deep.
pub(crate) fn count_unmade(
    alloc: Global,
    unifier: &OverlapUnifier,
    outer: &Rule,
    outer_size: &SideSize,
    place: &[u8],
    part: &Term,
    inner: &Rule,
    inner_size: &SideSize,
    nodes: u64,
) -> Result<u64, PeakFault>
    requires outer_size { IsSizeOf outer.now.right outer_size.now }
    requires inner_size { IsSizeOf inner.now.right inner_size.now }
    requires outer_small { HasSmallVariables outer.now.right }
    requires small { HasSmallVariables inner.now.right }
    requires there { subterm_at place.now outer.now.left ≡ Some (tree part.now) }
    requires positive { All (λ n. 0 < n) place.now }
    ensures limits { IfOk result (λ total. (u : Tree)
        → replaced_at place.now outer.now.left (renamed_apart inner.now).right ≡ Some u
        → KeepsLimits nodes total
        (apply (substitution unifier.now) outer.now.left) (apply (substitution unifier.now) u)
        (apply (substitution unifier.now) outer.now.right)) }
    ensures fault { IfErr result (λ fault. (u : Tree)
        → replaced_at place.now outer.now.left (renamed_apart inner.now).right ≡ Some u
        → PassesLimit fault nodes
        (apply (substitution unifier.now) outer.now.left) (apply (substitution unifier.now) u)
        (apply (substitution unifier.now) outer.now.right)) }
{
    let found = peak_size(
        alloc, unifier, outer, outer_size, place, part, inner, inner_size,
    )?;
    match found {
        Some(more) => {
            let total = nodes.saturating_add(more);
            within_most(total)
        }
        None => {
            let reduct = contract(alloc, outer, place, inner)?;
            count_nodes(unifier, &outer.left, &reduct, &outer.right, nodes)
        }
    }
}

/// The number of nodes of the peak. `None` where one of its terms may pass the limits on computed
/// terms.
fn peak_size(
    alloc: Global,
    unifier: &OverlapUnifier,
    outer: &Rule,
    outer_size: &SideSize,
    place: &[u8],
    part: &Term,
    inner: &Rule,
    inner_size: &SideSize,
) -> Result<Option<u64>, OutOfMemory>
    requires outer_size { IsSizeOf outer.now.right outer_size.now }
    requires inner_size { IsSizeOf inner.now.right inner_size.now }
    requires outer_small { HasSmallVariables outer.now.right }
    requires small { HasSmallVariables inner.now.right }
    requires there { subterm_at place.now outer.now.left ≡ Some (tree part.now) }
    ensures { IfOk result (λ found. IfSome found (λ n. (u : Tree)
        → replaced_at place.now outer.now.left (renamed_apart inner.now).right ≡ Some u → AreCounted
        (apply (substitution unifier.now) outer.now.left) (apply (substitution unifier.now) u)
        (apply (substitution unifier.now) outer.now.right) n)) }
{
    let by = small_instance(alloc, unifier, &inner.right, inner_size, MOST_VARIABLES)?;
    let right = small_instance(alloc, unifier, &outer.right, outer_size, 0)?;
    match (by, right) {
        (Some(put), Some(other)) => Ok(three_sizes(unifier, &outer.left, place, part, put, other)),
        (None, _) => Ok(None),
        (Some(_), None) => Ok(None),
    }
}

/// The number of nodes of the instances of a left side, of the same with another term at a place,
/// and of a right side, where those of the other term and of the right side have so many. `None`
/// where one of them may pass the limits on computed terms.
fn three_sizes(
    unifier: &OverlapUnifier,
    left: &Term,
    place: &[u8],
    part: &Term,
    put: u64,
    other: u64,
) -> Option<u64>
    requires there { subterm_at place.now (tree left.now) ≡ Some (tree part.now) }
    requires put { put ≤ 65536 }
    requires other { other ≤ 65536 }
    ensures { IfSome result (λ n. (by right u : Tree)
        → IsSmallOf (apply (substitution unifier.now) by) put
        → IsSmallOf (apply (substitution unifier.now) right) other
        → replaced_at place.now (tree left.now) by ≡ Some u
        → AreCounted (apply (substitution unifier.now) (tree left.now))
        (apply (substitution unifier.now) u) (apply (substitution unifier.now) right) n) }
{
    let whole = small_size(unifier, left)?;
    let redex = small_size(unifier, part)?;
    let reduct = whole - redex + put;
    let depth = place.len() as u64 + put;
    if reduct > MOST_NODES || depth > GREATEST_DEPTH {
        return None;
    }
    Some(whole + reduct + other)
}
