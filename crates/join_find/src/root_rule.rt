//! The least rule that leads from one term to another at the root.
ghost use Rattle.std.specs.Prelude.{◌≡◌, ◌<◌, ◌↔◌, [], length, IsTrue, IfOk, MatchOption};
ghost use Rattle.trs_core.specs.View.{tree};
ghost use Rattle.trs_defs.specs.Size.{within_limits};
ghost use Rattle.trs_defs.specs.Path.{StepsAt};
ghost use Rattle.trs_defs.specs.Substitution.{IsInstance};
ghost use Rattle.term_pool.specs.LeftSides.{IsGround};
ghost use Rattle.term_pool.specs.Pooled.{tree_at};
ghost use Rattle.join_find.specs.ParallelRow.{HasNoRootStep, IsRootStep};

use std::alloc::Global;
use term_pool::{Pool, RulesByRoot, ids_are_distinct};
use trs_core::{OutOfMemory, Position, Rule, Term, Trs, least_variable, systems_are_valid};

/// The least rule that leads at the root from the term of one id to that of another. Only rules
/// with the root of the first term are tried. The pool is as before. It is not inlined, for the
/// stack of deep terms.
#[inline(never)]
pub(crate) fn root_rule(
    alloc: Global,
    pool: &mut Pool,
    trs: &Trs,
    by_root: &RulesByRoot,
    ids: (u32, u32),
) -> Result<Option<u32>, OutOfMemory>
    requires rules { by_root.now ≡ trs.now }
    requires from { ids.0 < length pool.old }
    requires to { ids.1 < length pool.old }
    requires limits { IsTrue (within_limits (tree_at pool.old ids.1)) }
    ensures same { pool.new ≡ pool.old }
    ensures rule { IfOk result (λ found. MatchOption found
        (HasNoRootStep trs.now.rules (tree_at pool.old ids.0) (tree_at pool.old ids.1))
        (IsRootStep trs.now.rules (tree_at pool.old ids.0) (tree_at pool.old ids.1))) }
{
    systems_are_valid(trs);
    let Some(f) = pool.root(ids.0) else {
        return Ok(None);
    };
    for k in by_root.with_root(f) {
        if leads(alloc, pool, trs, ids, *k)? {
            return Ok(Some(*k));
        }
    }
    Ok(None)
}

/// Whether rule `k` leads at the root from the term of one id to that of another. A term is made only
/// where both sides of the rule match, and the right one has variables. The pool is as before.
fn leads(
    alloc: Global,
    pool: &mut Pool,
    trs: &Trs,
    ids: (u32, u32),
    k: u32,
) -> Result<bool, OutOfMemory>
    requires from { ids.0 < length pool.old }
    requires to { ids.1 < length pool.old }
    requires limits { IsTrue (within_limits (tree_at pool.old ids.1)) }
    ensures same { pool.new ≡ pool.old }
    ensures leads { IfOk result (λ yes. IsTrue yes
        ↔ StepsAt trs.now.rules [] k (tree_at pool.old ids.0) (tree_at pool.old ids.1)) }
{
    let Some(rule) = trs.rules().get(k as usize) else {
        return Ok(false);
    };
    if !both_match(alloc, pool, rule, ids)? {
        return Ok(false);
    }
    if is_ground(&rule.right) {
        return Ok(true);
    }
    makes(alloc, pool, trs, ids, k)
}

/// Whether the left side of the rule matches the first term, and the right side the second.
fn both_match(alloc: Global, pool: &Pool, rule: &Rule, ids: (u32, u32)) -> Result<bool, OutOfMemory>
    requires from { ids.0 < length pool.now }
    requires to { ids.1 < length pool.now }
    ensures { IfOk result (λ yes. IsTrue yes ↔ IsInstance rule.now.left (tree_at pool.now ids.0)
        × IsInstance rule.now.right (tree_at pool.now ids.1)) }
{
    if !pool.is_instance(alloc, rule, ids.0)? {
        return Ok(false);
    }
    pool.is_instance_of(alloc, &rule.right, ids.1)
}

/// The same as `leads`, by the term that the rule makes of the first.
fn makes(
    alloc: Global,
    pool: &mut Pool,
    trs: &Trs,
    ids: (u32, u32),
    k: u32,
) -> Result<bool, OutOfMemory>
    requires from { ids.0 < length pool.old }
    requires to { ids.1 < length pool.old }
    requires limits { IsTrue (within_limits (tree_at pool.old ids.1)) }
    ensures same { pool.new ≡ pool.old }
    ensures leads { IfOk result (λ yes. IsTrue yes
        ↔ StepsAt trs.now.rules [] k (tree_at pool.old ids.0) (tree_at pool.old ids.1)) }
{
    let root = Position::new(alloc);
    let mark = pool.mark();
    match pool.step_at(alloc, trs, ids.0, &root, k) {
        Err(fault) => {
            fault.unless_no_memory()?;
            Ok(false)
        }
        Ok(reduct) => {
            ids_are_distinct(pool);
            pool.release(mark);
            Ok(reduct == ids.1)
        }
    }
}

/// Whether the term has no variable.
fn is_ground(t: &Term) -> bool
    ensures { IsTrue result → IsGround (tree t.now) }
{
    let least = least_variable(t, 0, None);
    match least {
        Some(_) => false,
        None => true,
    }
}
