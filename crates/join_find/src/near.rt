//! A term and its reducts.
ghost use Rattle.std.specs.Prelude.{◌≡◌, ◌<◌, length, IfOk, OnOk};
ghost use Rattle.term_pool.specs.Pooled.{tree_at};
ghost use Rattle.term_pool.specs.Redexes.{IsNarrow, IsRedexAt};
ghost use Rattle.term_pool.specs.Known.{IsKnown};
ghost use Rattle.join_find.specs.ReachedSides.{IsNarrowAt};
ghost use Rattle.join_find.specs.Near.{IsSiftedNear, AddsReduct};

use rewrite_core::PathStep;
use std::alloc::Global;
use term_pool::{Known, Pool, RulesByRoot, ids_are_distinct, one_longer};
use trs_core::{OutOfMemory, Trs};

/// The term of an id, and after it those of its reducts that the pool has already, by its redexes
/// in order, with the path of at most one step. Nothing is kept of the others. What is found out
/// of redexes is added to what is known, for later calls.
pub(crate) fn near(
    alloc: Global,
    pool: &mut Pool,
    by_root: &RulesByRoot,
    id: u32,
    known: &mut Known,
) -> Result<Vec<(u32, Vec<PathStep>)>, OutOfMemory>
    requires narrow { IsNarrowAt pool.old id }
    requires known { IsKnown by_root.now.rules pool.old known.old }
    ensures near { IfOk result (λ found.
        IsSiftedNear by_root.now.rules (tree_at pool.old id) pool.old found.items) }
    ensures known { OnOk result (IsKnown by_root.now.rules pool.old known.new) }
    ensures same { pool.new ≡ pool.old }
{
    let mut near = Vec::new(alloc);
    near.push((id, Vec::new(alloc)))?;
    let steps = pool.list_redexes(alloc, by_root, id, known)?;
    for step in &steps {
        add_reduct(alloc, pool, by_root.trs(), id, step, &mut near)?;
    }
    Ok(near)
}

/// Lists the reduct by one step, if the pool has its term. The pool is as before.
fn add_reduct(
    alloc: Global,
    pool: &mut Pool,
    trs: &Trs,
    id: u32,
    step: &PathStep,
    near: &mut Vec<(u32, Vec<PathStep>)>,
) -> Result<(), OutOfMemory>
    requires there { id < length pool.old }
    requires redex { IsRedexAt trs.now.rules (tree_at pool.old id) step.now }
    ensures adds { OnOk result (AddsReduct trs.now.rules pool.old
        (tree_at pool.old id) step.now near.old.items near.new.items) }
    ensures same { pool.new ≡ pool.old }
{
    let mark = pool.mark();
    match pool.step_at(alloc, trs, id, &step.place, step.rule) {
        Err(fault) => fault.unless_no_memory(),
        Ok(reduct) => {
            ids_are_distinct(pool);
            pool.release(mark);
            if reduct < mark {
                near.push((reduct, one_longer(alloc, &[], step)?))?;
            }
            Ok(())
        }
    }
}
