//! Caps that clash, looked for from the roots of two terms on.
ghost use Rattle.std.specs.Prelude.{◌<◌, true, length, IfOk, IfSome, OnOk};
ghost use Rattle.trs_defs.specs.System.{IsSystem};
ghost use Rattle.term_pool.specs.Pooled.{tree_at};
ghost use Rattle.trs_caps.specs.KnownCaps.{IsKnown};
ghost use Rattle.nonjoin.specs.Clashing.{TellsClash, HasKeptRoot};

use std::alloc::Global;
use std::slice::from_ref;
use term_pool::{Pool, RulesByRoot};
use trs_caps::KnownCaps;
use trs_core::OutOfMemory;

/// Whether the caps of two terms, by their ids, differ at a place where neither has a hole. Caps are
/// made only of terms that differ and whose root some rule has: equal terms have one cap, and a root
/// that no rule has stays.
pub(crate) fn clash(
    alloc: Global,
    by_root: &RulesByRoot,
    pool: &Pool,
    known: &mut KnownCaps,
    a: u32,
    b: u32,
) -> Result<bool, OutOfMemory>
    requires first { a < length pool.now }
    requires second { b < length pool.now }
    requires known { IsKnown by_root.now.rules true known.old }
    ensures clash { IfOk result
        (TellsClash by_root.now.rules (tree_at pool.now a) (tree_at pool.now b)) }
    ensures known { OnOk result (IsKnown by_root.now.rules true known.new) }
{
    if a == b {
        return Ok(false);
    }
    let Some(f) = kept_root(by_root, pool, a) else {
        return caps_clash(alloc, by_root, pool, known, a, b);
    };
    let Some(g) = kept_root(by_root, pool, b) else {
        return caps_clash(alloc, by_root, pool, known, a, b);
    };
    if f != g {
        return Ok(true);
    }
    for i in 0..255u8 {
        let place = i + 1;
        match (pool.at(a, from_ref(&place)), pool.at(b, from_ref(&place))) {
            (Some(x), Some(y)) => {
                if clash(alloc, by_root, pool, known, x, y)? {
                    return Ok(true);
                }
            }
            (None, None) => return Ok(false),
            (Some(_), None) => return Ok(true),
            (None, Some(_)) => return Ok(true),
        }
    }
    // Arguments past these have no place.
    caps_clash(alloc, by_root, pool, known, a, b)
}

/// The root of an id's term, if it is a symbol that no rule has at its root. It is not inlined, for
/// the stack of deep terms.
#[inline(never)]
fn kept_root(by_root: &RulesByRoot, pool: &Pool, id: u32) -> Option<u32>
    requires { id < length pool.now }
    ensures root { IfSome result (HasKeptRoot by_root.now.rules (tree_at pool.now id)) }
    ensures valid { IfSome result (λ _. IsSystem by_root.now) }
{
    let Some(f) = pool.root(id) else {
        return None;
    };
    if by_root.with_root(f).is_empty() {
        Some(f)
    } else {
        None
    }
}

/// Whether the caps of two terms clash, by the whole caps. It is not inlined, for the stack of deep
/// terms.
#[inline(never)]
fn caps_clash(
    alloc: Global,
    by_root: &RulesByRoot,
    pool: &Pool,
    known: &mut KnownCaps,
    a: u32,
    b: u32,
) -> Result<bool, OutOfMemory>
    requires first { a < length pool.now }
    requires second { b < length pool.now }
    requires known { IsKnown by_root.now.rules true known.old }
    ensures clash { IfOk result
        (TellsClash by_root.now.rules (tree_at pool.now a) (tree_at pool.now b)) }
    ensures known { OnOk result (IsKnown by_root.now.rules true known.new) }
{
    let left = pool.read(alloc, a)?;
    let right = pool.read(alloc, b)?;
    let first = known.cap(alloc, by_root, &left, true)?;
    let second = known.cap(alloc, by_root, &right, true)?;
    Ok(first.is_disjoint(&second))
}
