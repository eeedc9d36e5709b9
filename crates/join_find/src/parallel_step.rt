//! The parallel step from one term to another.
ghost use Rattle.std.specs.Prelude.{◌≡◌, ◌<◌, ℕ, List, Some, All, false, [], ◌∷◌, ◌+◌, length};
ghost use Rattle.std.specs.Prelude.{IsTrue, IfOk, IfSome, IfNone};
ghost use Rattle.trs_defs.specs.Tree.{Tree};
ghost use Rattle.trs_defs.specs.Size.{within_limits};
ghost use Rattle.trs_defs.specs.Position.{subterm_at};
ghost use Rattle.trs_defs.specs.Path.{PlacedRule};
ghost use Rattle.term_pool.specs.Pooled.{StandsFor, tree_at};
ghost use Rattle.term_pool.specs.Redexes.{IsNarrow, Grows};
ghost use Rattle.join_find.specs.ParallelRow.{IsParallelStep};
ghost use Rattle.join_find.specs.Alike.{AreAlike};

use crate::root_rule::root_rule;
use rewrite_core::PathStep;
use std::alloc::Global;
use term_pool::{Pool, RulesByRoot, ids_are_distinct};
use trs_core::{OutOfMemory, Position, Trs};

/// Adds the steps of the parallel step between two subterms, which have these ids and stand at the
/// place. Where there is none, some steps may have been added. The pool is as before.
pub(crate) fn add_steps(
    alloc: Global,
    pool: &mut Pool,
    trs: &Trs,
    by_root: &RulesByRoot,
    ids: (u32, u32),
    place: &mut Vec<u8>,
    steps: &mut Vec<PathStep>,
) -> Result<bool, OutOfMemory>
    requires rules { by_root.now ≡ trs.now }
    requires from { ids.0 < length pool.old }
    requires to { ids.1 < length pool.old }
    requires narrow { IsNarrow (tree_at pool.old ids.0) }
    requires limits { IsTrue (within_limits (tree_at pool.old ids.1)) }
    requires positive { All (λ n. 0 < n) place.old.items }
    ensures same { pool.new ≡ pool.old }
    ensures place { IfOk result (λ yes. IsTrue yes → place.new.items ≡ place.old.items) }
    ensures found { IfOk result (λ yes. IsTrue yes → Grows place.old.items
        (IsParallelStep trs.now.rules (tree_at pool.old ids.0) (tree_at pool.old ids.1))
        steps.old.items steps.new.items) }
    ensures none { IfOk result (λ yes. yes ≡ false → (ss : List PlacedRule)
        → IsParallelStep trs.now.rules (tree_at pool.old ids.0) (tree_at pool.old ids.1) ss
        → ⊥) }
{
    ids_are_distinct(pool);
    if ids.0 == ids.1 {
        return Ok(true);
    }
    if let Some(rule) = root_rule(alloc, pool, trs, by_root, ids)? {
        let at = Position::of(alloc, place)?;
        steps.push(PathStep { place: at, rule })?;
        return Ok(true);
    }
    let Some(count) = common_arity(pool, ids) else {
        return Ok(false);
    };
    for i in 0..count {
        let parts = (argument(pool, ids.0, i), argument(pool, ids.1, i));
        place.push(i as u8 + 1)?;
        if !add_steps(alloc, pool, trs, by_root, parts, place, steps)? {
            return Ok(false);
        }
        place.pop();
    }
    Ok(true)
}

/// How many arguments both terms have, where they have one root and as many arguments.
fn common_arity(pool: &Pool, ids: (u32, u32)) -> Option<usize>
    requires from { ids.0 < length pool.now }
    requires to { ids.1 < length pool.now }
    ensures some { IfSome result (AreAlike (tree_at pool.now ids.0) (tree_at pool.now ids.1)) }
    ensures none { IfNone result ((n : ℕ)
        → AreAlike (tree_at pool.now ids.0) (tree_at pool.now ids.1) n → ⊥) }
{
    let f = pool.root(ids.0)?;
    let g = pool.root(ids.1)?;
    if f != g {
        return None;
    }
    let count = pool.arity(ids.0);
    let others = pool.arity(ids.1);
    if others != count {
        return None;
    }
    Some(count)
}

/// The id of the argument behind so many others, which the term has.
fn argument(pool: &Pool, id: u32, count: usize) -> u32
    requires there { id < length pool.now }
    requires has { (t : Tree) × (subterm_at ((count + 1) ∷ []) (tree_at pool.now id) ≡ Some t) }
    ensures { (t : Tree) → subterm_at ((count + 1) ∷ []) (tree_at pool.now id) ≡ Some t
        → StandsFor pool.now result t }
{
    match pool.argument(id, count) {
        Some(part) => part,
        None => unreachable!(),
    }
}
