//! The two results of one critical peak as a pair of ids.
ghost use Rattle.std.specs.Prelude.{◌<◌, All, IfOk};
ghost use Rattle.trs_core.specs.SystemLimits.{HaveSmallVariables};
ghost use Rattle.trs_core.specs.View.{tree};
ghost use Rattle.term_pool.specs.Pooled.{Extends, StandsFor};
ghost use Rattle.crit_pairs.specs.Overlapping.{substitution};
ghost use Rattle.crit_pairs.specs.GroundSides.{AreGroundRights};
ghost use Rattle.crit_pairs.specs.MadePairs.{spot, UnifiesAt, IsMade};

use crate::PeakFault;
use crate::contracting::contract;
use crate::ground_sides::{GroundSide, ground_results};
use crate::names::Names;
use crate::overlapping::OverlapUnifier;
use crate::sides::{count_nodes, count_top};
use crate::table::PeakPair;
use crate::unbuilt::results;
use std::alloc::Global;
use term_pool::Pool;
use trs_core::{OutOfMemory, Rule, Term};

/// The pair of a peak, and the nodes of all peaks with its own.
#[derive(Clone, Copy)]
pub(crate) struct MadePair {
    pub pair: PeakPair,
    pub nodes: u64,
    /// Whether the results were built, and were not there already.
    pub is_built: bool,
}

/// The pair of the peak of rule i in rule j at a place, by a most general unifier. Results with no
/// variable are there already.
pub(crate) fn make_pair(
    alloc: Global,
    rules: &[Rule],
    rights: &[Option<GroundSide>],
    j: usize,
    i: usize,
    place: &[u8],
    unifier: &OverlapUnifier,
    names: &mut Names,
    pool: &mut Pool,
    nodes: u64,
) -> Result<MadePair, PeakFault>
    requires rights { AreGroundRights rules.now pool.old rights.now }
    requires small { HaveSmallVariables rules.now }
    requires positive { All (λ n. 0 < n) place.now }
    requires unifier { UnifiesAt rules.now (spot j place.now i) (substitution unifier.now) }
    ensures made { IfOk result (IsMade rules.now (spot j place.now i) pool.new nodes) }
    ensures kept { Extends pool.old pool.new }
{
    match ground_results(rights, place, i, j) {
        None => build_pair(alloc, rules, j, i, place, unifier, names, pool, nodes),
        Some(found) => {
            let outer = &rules[j];
            let (left, right) = (found.left.size, found.right.size);
            let total = count_top(unifier, &outer.left, left, right, nodes)?;
            let pair = PeakPair {
                left: found.left.id,
                right: found.right.id,
            };
            Ok(MadePair {
                pair,
                nodes: total,
                is_built: false,
            })
        }
    }
}

/// The same pair, where the results are built.
fn build_pair(
    alloc: Global,
    rules: &[Rule],
    j: usize,
    i: usize,
    place: &[u8],
    unifier: &OverlapUnifier,
    names: &mut Names,
    pool: &mut Pool,
    nodes: u64,
) -> Result<MadePair, PeakFault>
    requires small { HaveSmallVariables rules.now }
    requires positive { All (λ n. 0 < n) place.now }
    requires unifier { UnifiesAt rules.now (spot j place.now i) (substitution unifier.now) }
    ensures made { IfOk result (IsMade rules.now (spot j place.now i) pool.new nodes) }
    ensures kept { Extends pool.old pool.new }
{
    let outer = &rules[j];
    let inner = &rules[i];
    let reduct = contract(alloc, outer, place, inner)?;
    let total = count_nodes(unifier, &outer.left, &reduct, &outer.right, nodes)?;
    let sides = results(alloc, unifier, &outer.left, &reduct, &outer.right, names)?;
    let pair = intern_pair(alloc, pool, &sides.0, &sides.1)?;
    Ok(MadePair {
        pair,
        nodes: total,
        is_built: true,
    })
}

/// The ids of two terms.
pub(crate) fn intern_pair(
    alloc: Global,
    pool: &mut Pool,
    left: &Term,
    right: &Term,
) -> Result<PeakPair, OutOfMemory>
    ensures left { IfOk result (λ pair. StandsFor pool.new pair.left (tree left.now)) }
    ensures right { IfOk result (λ pair. StandsFor pool.new pair.right (tree right.now)) }
    ensures kept { Extends pool.old pool.new }
{
    let s = pool.intern(alloc, left)?;
    let t = pool.intern(alloc, right)?;
    Ok(PeakPair { left: s, right: t })
}
