//! The results of one critical peak: instances that are built, or whole right sides that are lent.
ghost use Rattle.std.specs.Prelude.{◌≡◌, ◌≢◌, ◌<◌, [], All, IfOk, IfErr, IfSome, None, Some, slice_get};
ghost use Rattle.trs_defs.specs.Tree.{Tree};
ghost use Rattle.trs_defs.specs.Position.{subterm_at, replaced_at};
ghost use Rattle.trs_defs.specs.Substitution.{apply};
ghost use Rattle.trs_core.specs.SystemLimits.{HaveSmallVariables};
ghost use Rattle.trs_core.specs.View.{tree};
ghost use Rattle.crit_pairs.specs.Apart.{renamed_apart};
ghost use Rattle.crit_pairs.specs.Overlapping.{substitution};
ghost use Rattle.crit_pairs.specs.Sides.{AreRenumbered, KeepsLimits, PassesLimit};
ghost use Rattle.crit_pairs.specs.WholeSides.{IsRightOf, HaveWholeResults, AreResults, AreWhole, reduct_of};

use crate::PeakFault;
use crate::apart::RulesApart;
use crate::contracting::contract;
use crate::counting::count_unmade;
use crate::names::Names;
use crate::overlapping::OverlapUnifier;
use crate::sides::{BuiltSides, MadeSides, Sides, count_nodes, count_top};
use crate::whole_sides::WholeSide;
use std::alloc::Global;
use trs_core::{OutOfMemory, Rule, Term};

/// The results of two rules, of which those of their peak are instances.
#[derive(Drop)]
pub(crate) enum Results<'r, 'a> {
    /// The reduct of the outer left side, and the outer right side.
    Contracted(Term),
    /// Both right sides, which have no variable.
    Whole(&'r WholeSide<'a>, &'r WholeSide<'a>),
}

/// The results of rule `i` in rule `j` at a place.
pub(crate) fn results_at<'r, 'a>(
    alloc: Global,
    rules: &'r RulesApart<'a>,
    j: usize,
    outer: &Rule,
    i: usize,
    inner: &Rule,
    place: &[u8],
) -> Result<Results<'r, 'a>, OutOfMemory>
    requires outer { slice_get rules.now.rules j ≡ Some outer.now }
    requires inner { slice_get rules.now.rules i ≡ Some inner.now }
    requires there { subterm_at place.now outer.now.left ≢ None }
    requires positive { All (λ n. 0 < n) place.now }
    requires small { HaveSmallVariables rules.now.rules }
    ensures { IfOk result (AreResults outer.now inner.now place.now) }
{
    match whole_results(rules, j, i, place) {
        Some((left, right)) => Ok(Results::Whole(left, right)),
        None => Ok(Results::Contracted(contract(alloc, outer, place, inner)?)),
    }
}

/// The right side of rule `i`, if this is the root and peaks have it whole.
pub(crate) fn root_side<'r, 'a>(
    rules: &'r RulesApart<'a>,
    i: usize,
    place: &[u8],
) -> Option<&'r WholeSide<'a>>
    ensures root { IfSome result (λ side. place.now ≡ []) }
    ensures side { IfSome result (λ side. IsRightOf rules.now.rules i side.now) }
{
    if !place.is_empty() {
        return None;
    }
    rules.whole_side(i)
}

/// The right sides of two rules, if this is the root and peaks have both whole.
fn whole_results<'r, 'a>(
    rules: &'r RulesApart<'a>,
    j: usize,
    i: usize,
    place: &[u8],
) -> Option<(&'r WholeSide<'a>, &'r WholeSide<'a>)>
    ensures { IfSome result (λ found.
        HaveWholeResults rules.now.rules place.now i j found.0.now found.1.now) }
{
    let left = root_side(rules, i, place)?;
    let right = rules.whole_side(j)?;
    Some((left, right))
}

/// The number of nodes of all peaks, where the peaks before have so many and the next one has these
/// results. They are not built.
pub(crate) fn count_peak(
    unifier: &OverlapUnifier,
    outer: &Rule,
    results: &Results,
    nodes: u64,
) -> Result<u64, PeakFault>
    requires whole { AreWhole outer.now.right results.now }
    ensures limits { IfOk result (λ total. KeepsLimits nodes total
        (apply (substitution unifier.now) outer.now.left)
        (apply (substitution unifier.now) (reduct_of results.now))
        (apply (substitution unifier.now) outer.now.right)) }
    ensures fault { IfErr result (λ fault. PassesLimit fault nodes
        (apply (substitution unifier.now) outer.now.left)
        (apply (substitution unifier.now) (reduct_of results.now))
        (apply (substitution unifier.now) outer.now.right)) }
{
    match results {
        Results::Contracted(reduct) => {
            count_nodes(unifier, &outer.left, reduct, &outer.right, nodes)
        }
        Results::Whole(left, right) => {
            count_top(unifier, &outer.left, left.size, right.size, nodes)
        }
    }
}

/// The number of nodes of all peaks, where the peaks before have so many and the next one is that of
/// rule `i` in rule `j` at this place, and is not made.
pub(crate) fn count_overlap(
    alloc: Global,
    rules: &RulesApart,
    unifier: &OverlapUnifier,
    j: usize,
    outer: &Rule,
    i: usize,
    inner: &Rule,
    place: &[u8],
    part: &Term,
    nodes: u64,
) -> Result<u64, PeakFault>
    requires outer { slice_get rules.now.rules j ≡ Some outer.now }
    requires inner { slice_get rules.now.rules i ≡ Some inner.now }
    requires there { subterm_at place.now outer.now.left ≡ Some (tree part.now) }
    requires positive { All (λ n. 0 < n) place.now }
    requires small { HaveSmallVariables rules.now.rules }
    ensures limits { IfOk result (λ total. (u : Tree)
        → replaced_at place.now outer.now.left (renamed_apart inner.now).right ≡ Some u
        → KeepsLimits nodes total
        (apply (substitution unifier.now) outer.now.left) (apply (substitution unifier.now) u)
        (apply (substitution unifier.now) outer.now.right)) }
    ensures fault { IfErr result (λ fault. (u : Tree)
        → replaced_at place.now outer.now.left (renamed_apart inner.now).right ≡ Some u
        → PassesLimit fault nodes
        (apply (substitution unifier.now) outer.now.left) (apply (substitution unifier.now) u)
        (apply (substitution unifier.now) outer.now.right)) }
{
    match whole_results(rules, j, i, place) {
        Some((left, right)) => count_top(unifier, &outer.left, left.size, right.size, nodes),
        None => count_unmade(
            alloc,
            unifier,
            outer,
            rules.right_size(j),
            place,
            part,
            inner,
            rules.right_size(i),
            nodes,
        ),
    }
}

/// The three terms of the peak.
pub(crate) fn peak_sides<'a, T: BuiltSides<'a>>(
    alloc: Global,
    unifier: &OverlapUnifier,
    outer: &Rule,
    results: &Results<'_, 'a>,
    names: &mut Names,
) -> Result<Sides<T>, OutOfMemory>
    requires whole { AreWhole outer.now.right results.now }
    ensures { IfOk result (λ s. AreRenumbered
        (apply (substitution unifier.now) outer.now.left)
        (apply (substitution unifier.now) (reduct_of results.now))
        (apply (substitution unifier.now) outer.now.right)
        (T.top_tree s.top) (T.Side.side_tree s.left) (T.Side.side_tree s.right)) }
{
    match results {
        Results::Contracted(reduct) => {
            T::sides(alloc, unifier, &outer.left, reduct, &outer.right, names)
        }
        Results::Whole(left, right) => Ok(Sides {
            top: T::beside_ground(alloc, unifier, &outer.left)?,
            left: T::whole(alloc, left)?,
            right: T::whole(alloc, right)?,
        }),
    }
}

/// The peak of rule `i` in rule `j` at this place, by a most general unifier. The peaks before have so
/// many nodes.
pub(crate) fn built_sides<'a, T: BuiltSides<'a>>(
    alloc: Global,
    rules: &RulesApart<'a>,
    j: usize,
    outer: &Rule,
    i: usize,
    inner: &Rule,
    place: &[u8],
    unifier: &OverlapUnifier,
    nodes: u64,
    names: &mut Names,
) -> Result<MadeSides<T>, PeakFault>
    requires outer { slice_get rules.now.rules j ≡ Some outer.now }
    requires inner { slice_get rules.now.rules i ≡ Some inner.now }
    requires there { subterm_at place.now outer.now.left ≢ None }
    requires positive { All (λ n. 0 < n) place.now }
    requires small { HaveSmallVariables rules.now.rules }
    ensures renumbered { IfOk result (λ made. (u : Tree)
        → replaced_at place.now outer.now.left (renamed_apart inner.now).right ≡ Some u
        → AreRenumbered
        (apply (substitution unifier.now) outer.now.left) (apply (substitution unifier.now) u)
        (apply (substitution unifier.now) outer.now.right)
        (T.top_tree made.top) (T.Side.side_tree made.left) (T.Side.side_tree made.right)) }
    ensures limits { IfOk result (λ made. (u : Tree)
        → replaced_at place.now outer.now.left (renamed_apart inner.now).right ≡ Some u
        → KeepsLimits nodes made.nodes
        (apply (substitution unifier.now) outer.now.left) (apply (substitution unifier.now) u)
        (apply (substitution unifier.now) outer.now.right)) }
    ensures fault { IfErr result (λ fault. (u : Tree)
        → replaced_at place.now outer.now.left (renamed_apart inner.now).right ≡ Some u
        → PassesLimit fault nodes
        (apply (substitution unifier.now) outer.now.left) (apply (substitution unifier.now) u)
        (apply (substitution unifier.now) outer.now.right)) }
{
    let results = results_at(alloc, rules, j, outer, i, inner, place)?;
    let total = count_peak(unifier, outer, &results, nodes)?;
    let sides = peak_sides::<T>(alloc, unifier, outer, &results, names)?;
    Ok(MadeSides {
        top: sides.top,
        left: sides.left,
        right: sides.right,
        nodes: total,
    })
}
