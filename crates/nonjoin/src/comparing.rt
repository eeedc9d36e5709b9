ghost use Rattle.std.specs.Prelude.{◌≤◌, ◌<◌, ◌↔◌, length, IfOk, IsTrue};
ghost use Rattle.trs_defs.specs.Size.{size_of};
ghost use Rattle.trs_defs.specs.Step.{Step};
ghost use Rattle.trs_defs.specs.Joinable.{IsJoinable};
ghost use Rattle.trs_core.specs.View.{tree};
ghost use Rattle.term_pool.specs.Pooled.{tree_at};
ghost use Rattle.nonjoin.specs.Apart.{AreApart};

use crate::clashing::clash;
use std::alloc::Global;
use term_pool::{Pool, RulesByRoot};
use trs_caps::KnownCaps;
use trs_core::{OutOfMemory, Term, Trs};

/// Whether the caps of two terms, their variables read as constants, do not unify. Then the terms
/// are not joinable. (Zankl, Felgenhauer and Middeldorp, CSI, a confluence tool, 2011.)
pub fn apart(alloc: Global, trs: &Trs, a: &Term, b: &Term) -> Result<bool, OutOfMemory>
    requires first { size_of (tree a.now) ≤ 65536 }
    requires second { size_of (tree b.now) ≤ 65536 }
    ensures caps { IfOk result (λ yes.
        IsTrue yes ↔ AreApart trs.now.rules (tree a.now) (tree b.now)) }
    ensures not_joinable { IfOk result (λ yes. IsTrue yes
        → IsJoinable (Step trs.now.rules) (tree a.now) (tree b.now) → ⊥) }
{
    let mut pool = Pool::new(alloc);
    let first = pool.intern(alloc, a)?;
    let second = pool.intern(alloc, b)?;
    apart_in_pool(alloc, &pool, trs, first, second)
}

/// The same of the terms of two ids. What both terms have in common costs nothing where no rule has
/// the symbols above it.
pub fn apart_in_pool(
    alloc: Global,
    pool: &Pool,
    trs: &Trs,
    a: u32,
    b: u32,
) -> Result<bool, OutOfMemory>
    requires first { a < length pool.now }
    requires second { b < length pool.now }
    ensures caps { IfOk result (λ yes.
        IsTrue yes ↔ AreApart trs.now.rules (tree_at pool.now a) (tree_at pool.now b)) }
    ensures not_joinable { IfOk result (λ yes. IsTrue yes
        → IsJoinable (Step trs.now.rules) (tree_at pool.now a) (tree_at pool.now b) → ⊥) }
{
    trs.rules();
    let by_root = RulesByRoot::new(alloc, trs)?;
    let mut known = KnownCaps::of_rules(alloc, &by_root)?;
    clash(alloc, &by_root, pool, &mut known, a, b)
}
