//! The ids of the results of one critical peak in a pool.
ghost use Rattle.std.specs.Prelude.{◌≡◌, ◌<◌, ℕ, List, All, IfOk, IfErr, IfSome, OnOk, Some, length, slice_get};
ghost use Rattle.trs_defs.specs.Position.{subterm_at};
ghost use Rattle.trs_defs.specs.Substitution.{apply};
ghost use Rattle.trs_defs.specs.System.{RewriteRule};
ghost use Rattle.trs_defs.specs.Tree.{Tree};
ghost use Rattle.trs_core.specs.SystemLimits.{HaveSmallVariables};
ghost use Rattle.trs_core.specs.View.{tree};
ghost use Rattle.term_pool.specs.Pooled.{Extends, StandsFor, tree_at};
ghost use Rattle.crit_pairs.specs.MadePairs.{spot, UnifiesAt};
ghost use Rattle.crit_pairs.specs.Meeting.{solution};
ghost use Rattle.crit_pairs.specs.Overlapping.{substitution};
ghost use Rattle.crit_pairs.specs.PooledTerms.{ArePeakInstances, ArePooledResults, ArePooledRules};
ghost use Rattle.crit_pairs.specs.Sides.{KeepsLimits, PassesLimit};

use crate::PeakFault;
use crate::apart::RulesApart;
use crate::binding_table::Bindings;
use crate::contracting::contract;
use crate::making::intern_pair;
use crate::names::Names;
use crate::overlapping::OverlapUnifier;
use crate::pooled_rules::PooledRules;
use crate::pooled_terms::AddedPair;
use crate::results::count_overlap;
use crate::sides::within_most;
use crate::solved::{self, name_instance};
use crate::table::PeakPair;
use crate::unbuilt::results;
use std::alloc::Global;
use term_pool::{Instances, Pool};
use trs_core::{OutOfMemory, Rule, Term};

/// The pair of the peak of rule `i` in rule `j` at a place, by a most general unifier, and the number of
/// nodes of all peaks, where those before have so many.
pub(crate) fn make_results(
    alloc: Global,
    rules: &RulesApart,
    j: usize,
    outer: &Rule,
    i: usize,
    inner: &Rule,
    place: &[u8],
    part: &Term,
    unifier: &OverlapUnifier,
    nodes: u64,
    names: &mut Names,
    sides: &mut PooledRules,
    pool: &mut Pool,
) -> Result<AddedPair, PeakFault>
    requires pooled { ArePooledRules rules.now.rules pool.old sides.old }
    requires outer { slice_get rules.now.rules j ≡ Some outer.now }
    requires inner { slice_get rules.now.rules i ≡ Some inner.now }
    requires there { subterm_at place.now outer.now.left ≡ Some (tree part.now) }
    requires positive { All (λ n. 0 < n) place.now }
    requires unifier { UnifiesAt rules.now.rules (spot j place.now i) (substitution unifier.now) }
    ensures results { IfOk result (λ added. ArePooledResults rules.now.rules (spot j place.now i)
        (substitution unifier.now) pool.new added.pair) }
    ensures limits { IfOk result (λ added. (top left right : Tree)
        → ArePeakInstances rules.now.rules (spot j place.now i) (substitution unifier.now)
        top left right → KeepsLimits nodes added.nodes top left right) }
    ensures fault { IfErr result (λ fault. (top left right : Tree)
        → ArePeakInstances rules.now.rules (spot j place.now i) (substitution unifier.now)
        top left right → PassesLimit fault nodes top left right) }
    ensures pooled { OnOk result (ArePooledRules rules.now.rules pool.new sides.new) }
    ensures kept { Extends pool.old pool.new }
{
    match unifier {
        OverlapUnifier::Bound(bindings) => make_bound(
            alloc, rules, j, i, place, bindings, nodes, names, sides, pool,
        ),
        OverlapUnifier::Shared(_) => make_built(
            alloc, rules, j, outer, i, inner, place, part, unifier, nodes, names, pool,
        ),
    }
}

/// The same by bindings, where nothing is built.
fn make_bound(
    alloc: Global,
    rules: &RulesApart,
    j: usize,
    i: usize,
    place: &[u8],
    bindings: &Bindings,
    nodes: u64,
    names: &mut Names,
    sides: &mut PooledRules,
    pool: &mut Pool,
) -> Result<AddedPair, PeakFault>
    requires pooled { ArePooledRules rules.now.rules pool.old sides.old }
    requires unifier { UnifiesAt rules.now.rules (spot j place.now i) (solution bindings.now) }
    ensures results { IfOk result (λ added. ArePooledResults rules.now.rules (spot j place.now i)
        (solution bindings.now) pool.new added.pair) }
    ensures limits { IfOk result (λ added. (top left right : Tree)
        → ArePeakInstances rules.now.rules (spot j place.now i) (solution bindings.now) top left right
        → KeepsLimits nodes added.nodes top left right) }
    ensures fault { IfErr result (λ fault. (top left right : Tree)
        → ArePeakInstances rules.now.rules (spot j place.now i) (solution bindings.now) top left right
        → PassesLimit fault nodes top left right) }
    ensures pooled { OnOk result (ArePooledRules rules.now.rules pool.new sides.new) }
    ensures kept { Extends pool.old pool.new }
{
    let pair = bound_results(alloc, rules, j, i, place, bindings, names, sides, pool)?;
    let outer = &rules.rules()[j];
    let total = count_pair(bindings, &outer.left, pair, nodes, pool)?;
    Ok(AddedPair { pair, nodes: total })
}

/// The same, where the results are built first.
fn make_built(
    alloc: Global,
    rules: &RulesApart,
    j: usize,
    outer: &Rule,
    i: usize,
    inner: &Rule,
    place: &[u8],
    part: &Term,
    unifier: &OverlapUnifier,
    nodes: u64,
    names: &mut Names,
    pool: &mut Pool,
) -> Result<AddedPair, PeakFault>
    requires outer { slice_get rules.now.rules j ≡ Some outer.now }
    requires inner { slice_get rules.now.rules i ≡ Some inner.now }
    requires there { subterm_at place.now outer.now.left ≡ Some (tree part.now) }
    requires positive { All (λ n. 0 < n) place.now }
    requires small { HaveSmallVariables rules.now.rules }
    ensures results { IfOk result (λ added. ArePooledResults rules.now.rules (spot j place.now i)
        (substitution unifier.now) pool.new added.pair) }
    ensures limits { IfOk result (λ added. (top left right : Tree)
        → ArePeakInstances rules.now.rules (spot j place.now i) (substitution unifier.now)
        top left right → KeepsLimits nodes added.nodes top left right) }
    ensures fault { IfErr result (λ fault. (top left right : Tree)
        → ArePeakInstances rules.now.rules (spot j place.now i) (substitution unifier.now)
        top left right → PassesLimit fault nodes top left right) }
    ensures kept { Extends pool.old pool.new }
{
    let total = count_overlap(
        alloc, rules, unifier, j, outer, i, inner, place, part, nodes,
    )?;
    let reduct = contract(alloc, outer, place, inner)?;
    let sides = results(alloc, unifier, &outer.left, &reduct, &outer.right, names)?;
    let pair = intern_pair(alloc, pool, &sides.0, &sides.1)?;
    Ok(AddedPair { pair, nodes: total })
}

/// The ids of both results. Nothing is built.
fn bound_results(
    alloc: Global,
    rules: &RulesApart,
    j: usize,
    i: usize,
    place: &[u8],
    bindings: &Bindings,
    names: &mut Names,
    sides: &mut PooledRules,
    pool: &mut Pool,
) -> Result<PeakPair, OutOfMemory>
    requires pooled { ArePooledRules rules.now.rules pool.old sides.old }
    requires unifier { UnifiesAt rules.now.rules (spot j place.now i) (solution bindings.now) }
    ensures results { IfOk result (ArePooledResults rules.now.rules (spot j place.now i)
        (solution bindings.now) pool.new) }
    ensures pooled { OnOk result (ArePooledRules rules.now.rules pool.new sides.new) }
    ensures kept { Extends pool.old pool.new }
{
    if let Some(pair) = whole_results(sides, j, i, place) {
        return Ok(pair);
    }
    let outer = &rules.rules()[j];
    names.clear();
    name_instance(bindings, &outer.left, bindings.levels, names)?;
    let right = sides.outer_right(alloc, bindings, j, names, pool)?;
    let by = sides.inner_right(alloc, bindings, i, names, pool)?;
    if place.is_empty() {
        return Ok(PeakPair { left: by, right });
    }
    let top = sides.outer_left(alloc, bindings, j, &outer.left, names, pool)?;
    let left = pool.put(alloc, top, place, by)?;
    Ok(PeakPair { left, right })
}

/// The right sides of both rules, if this is the root and they have no variable.
fn whole_results(sides: &PooledRules, j: usize, i: usize, place: &[u8]) -> Option<PeakPair>
    ensures { IfSome result (λ pair. (rules : List RewriteRule) (pool : List Tree)
        → ArePooledRules rules pool sides.now → (unifier : ℕ → Tree)
        → UnifiesAt rules (spot j place.now i) unifier
        → ArePooledResults rules (spot j place.now i) unifier pool pair) }
{
    if !place.is_empty() {
        return None;
    }
    let left = sides.ground_right(i)?;
    let right = sides.ground_right(j)?;
    Some(PeakPair { left, right })
}

/// The number of nodes of all peaks, where the peaks before have so many and the next one has the
/// instance of a term as its top, and these results.
fn count_pair(
    bindings: &Bindings,
    top: &Term,
    pair: PeakPair,
    nodes: u64,
    pool: &Pool,
) -> Result<u64, PeakFault>
    requires left { pair.left < length pool.now }
    requires right { pair.right < length pool.now }
    ensures limits { IfOk result (λ total. KeepsLimits nodes total
        (apply (solution bindings.now) (tree top.now))
        (tree_at pool.now pair.left) (tree_at pool.now pair.right)) }
    ensures fault { IfErr result (λ fault. PassesLimit fault nodes
        (apply (solution bindings.now) (tree top.now))
        (tree_at pool.now pair.left) (tree_at pool.now pair.right)) }
{
    let size = solved::small_size(bindings, top);
    let left = pool.small_size(pair.left);
    let right = pool.small_size(pair.right);
    match (size, left, right) {
        (Some(x), Some(y), Some(z)) => {
            let more = x.saturating_add(y).saturating_add(z);
            within_most(nodes.saturating_add(more))
        }
        (None, _, _) => Err(PeakFault::TooLarge),
        (Some(_), None, _) => Err(PeakFault::TooLarge),
        (Some(_), Some(_), None) => Err(PeakFault::TooLarge),
    }
}
