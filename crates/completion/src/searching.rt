ghost use Rattle.std.specs.Prelude.{◌≡◌, ◌<◌, ◌+◌, ◌↔◌, All, Some, length, slice_get, IfOk, IfSome, IsTrue, OnOk};
ghost use Rattle.trs_defs.specs.Substitution.{IsInstance};
ghost use Rattle.trs_defs.specs.System.{RewriteRule};
ghost use Rattle.term_pool.specs.Pooled.{tree_at};
ghost use Rattle.term_pool.specs.Redexes.{IsNarrow};
ghost use Rattle.completion.specs.Searching.{ArePassed, AreGroundSides, HasNoneOf};
ghost use Rattle.completion.specs.Searching.{IsFound, IsRootFound};

use crate::growing::{GrowingTrs, growing_systems_are_valid};
use crate::passed_ids::PassedIds;
use std::alloc::Global;
use term_pool::{Pool, ids_are_distinct};
use trs_core::OutOfMemory;

/// The rule of the first redex of an id's term, whose place is added to the given one; or none, and
/// then the id has been passed by all rules. At an id that was passed by some rules only the others
/// are tried.
pub(crate) fn first_redex(
    alloc: Global,
    pool: &Pool,
    system: &GrowingTrs,
    sides: &[Option<u32>],
    id: u32,
    place: &mut Vec<u8>,
    passed: &mut PassedIds,
) -> Result<Option<u32>, OutOfMemory>
    requires there { id < length pool.now }
    requires narrow { IsNarrow (tree_at pool.now id) }
    requires positive { All (λ n. 0 < n) place.old.items }
    requires sides { AreGroundSides system.now.rules pool.now sides.now }
    requires passed { ArePassed system.now.rules pool.now passed.old }
    ensures found { IfOk result (IsFound system.now.rules (tree_at pool.now id) place.old.items
        place.new.items) }
    ensures positive { OnOk result (All (λ n. 0 < n) place.new.items) }
    ensures passed { OnOk result (ArePassed system.now.rules pool.now passed.new) }
{
    let all = system.rules().len() as u32;
    let known = passed.count(id);
    if known == all {
        return Ok(None);
    }
    if let Some(rule) = root_redex(alloc, pool, system, sides, id, known)? {
        return Ok(Some(rule));
    }
    let mut count: u8 = 0;
    while let Some(part) = pool.argument(id, usize::from(count)) {
        count += 1;
        place.push(count)?;
        if let Some(rule) = first_redex(alloc, pool, system, sides, part, place, passed)? {
            return Ok(Some(rule));
        }
        place.pop();
    }
    passed.pass(id, all)?;
    Ok(None)
}

/// The first rule of whose left side the id's term is an instance. Only rules with its root are
/// tried, and none of the rules that are known to have no redex in it.
fn root_redex(
    alloc: Global,
    pool: &Pool,
    system: &GrowingTrs,
    sides: &[Option<u32>],
    id: u32,
    known: u32,
) -> Result<Option<u32>, OutOfMemory>
    requires there { id < length pool.now }
    requires sides { AreGroundSides system.now.rules pool.now sides.now }
    requires none { HasNoneOf known system.now.rules (tree_at pool.now id) }
    ensures { IfOk result (IsRootFound system.now.rules (tree_at pool.now id)) }
{
    growing_systems_are_valid(system);
    let Some(f) = pool.root(id) else {
        return Ok(None);
    };
    for k in system.with_root(f) {
        if is_redex_by(alloc, pool, system, sides, id, known, *k)? {
            return Ok(Some(*k));
        }
    }
    Ok(None)
}

/// Whether the id's term is an instance of the left side of rule `k`. A left side with no variable
/// has one instance, and that one id.
fn is_redex_by(
    alloc: Global,
    pool: &Pool,
    system: &GrowingTrs,
    sides: &[Option<u32>],
    id: u32,
    known: u32,
    k: u32,
) -> Result<bool, OutOfMemory>
    requires there { id < length pool.now }
    requires rule { k < length system.now.rules }
    requires sides { AreGroundSides system.now.rules pool.now sides.now }
    requires none { HasNoneOf known system.now.rules (tree_at pool.now id) }
    ensures { IfOk result (λ yes. (r : RewriteRule) → slice_get system.now.rules k ≡ Some r →
        (IsTrue yes ↔ IsInstance r.left (tree_at pool.now id))) }
{
    if k < known {
        return Ok(false);
    }
    let rules = system.rules();
    match side_of(sides, k) {
        Some(side) => {
            ids_are_distinct(pool);
            Ok(side == id)
        }
        None => pool.is_instance(alloc, &rules[k as usize], id),
    }
}

/// The id of the left side of rule `k`, if it has one.
fn side_of(sides: &[Option<u32>], k: u32) -> Option<u32>
    ensures { IfSome result (λ side. slice_get sides.now k ≡ Some (Some side)) }
{
    match sides.get(k as usize) {
        Some(side) => *side,
        None => None,
    }
}
