//! What is known of terms, for their caps.
ghost use Rattle.std.specs.Prelude.{ℕ, ◌≡◌, ◌<◌, ◌+◌, Bool, List, Some, IfOk, IfSome, OnOk, length};
ghost use Rattle.std.specs.Ordering.{nat_cmp};
ghost use Rattle.std.specs.BTreeMap.{get};
ghost use Rattle.trs_defs.specs.Tree.{Tree};
ghost use Rattle.trs_defs.specs.Position.{argument_at};
ghost use Rattle.trs_defs.specs.System.{RewriteRule, IsSystem};
ghost use Rattle.trs_core.specs.View.{tree};
ghost use Rattle.trs_caps.specs.KnownCaps.{IsKnown, IsIdOf, Notes};

use crate::shapes::ground_sizes;
use std::alloc::Global;
use std::collections::BTreeMap;
use std::slice::from_ref;
use term_pool::{Pool, RulesByRoot};
use trs_core::{OutOfMemory, Term};

/// Beside fewer rules equal terms are put beside the left sides again, which costs less than to see
/// that they are equal.
const MANY_RULES: usize = 16;

/// Terms that had their caps made, and what was found out. So equal terms are put beside the left
/// sides once.
#[derive(Drop)]
pub struct KnownCaps {
    /// The terms. Equal ones have one id.
    pub(crate) pool: Pool,
    /// Whether the symbol of an id's term over the caps of its arguments meets a left side.
    pub(crate) opens: BTreeMap<u32, bool>,
    /// For each rule the size of its left side, or 0 where that has a variable or is not known.
    pub(crate) ground_sizes: Vec<u32>,
}

impl KnownCaps {
    /// Nothing is known. It takes no memory.
    pub fn new(alloc: Global) -> KnownCaps
        ensures { (rules : List RewriteRule) (fixed : Bool) → IsKnown rules fixed result }
    {
        KnownCaps {
            pool: Pool::new(alloc),
            opens: BTreeMap::new(alloc),
            ground_sizes: Vec::new(alloc),
        }
    }

    /// Nothing is known of terms, but for each rule the size of its left side is, if that has no
    /// variable. This pays for many terms, or for large ones.
    pub fn of_rules(alloc: Global, by_root: &RulesByRoot) -> Result<KnownCaps, OutOfMemory>
        ensures { IfOk result (λ known. (fixed : Bool) → IsKnown by_root.now.rules fixed known) }
    {
        let mut known = KnownCaps::new(alloc);
        known.ground_sizes = ground_sizes(alloc, by_root)?;
        Ok(known)
    }

    /// The id of a term, where there are many rules.
    pub(crate) fn id(
        &mut self,
        alloc: Global,
        by_root: &RulesByRoot,
        t: &Term,
    ) -> Result<Option<u32>, OutOfMemory>
        ensures system { IsSystem by_root.now }
        ensures id { IfOk result (λ id. IsIdOf self.new.pool id (tree t.now)) }
        ensures known { (rules : List RewriteRule) (fixed : Bool) → IsKnown rules fixed self.old
            → OnOk result (IsKnown rules fixed self.new) }
    {
        if by_root.rules().len() < MANY_RULES {
            return Ok(None);
        }
        let id = self.pool.intern(alloc, t)?;
        Ok(Some(id))
    }
}

/// The id of an argument, counted from 0. It is not looked up past the 255th. It is not inlined, for
/// the stack of deep terms.
#[inline(never)]
pub(crate) fn argument(pool: &Pool, id: Option<u32>, i: usize) -> Option<u32>
    requires { IfSome id (λ k. k < length pool.now) }
    ensures { (t u : Tree) → IsIdOf pool.now id t → argument_at t (i + 1) ≡ Some u
        → IsIdOf pool.now result u }
{
    let Some(whole) = id else {
        return None;
    };
    if i >= 255 {
        return None;
    }
    let place = i as u8 + 1;
    pool.at(whole, from_ref(&place))
}

/// What is noted of an id.
pub(crate) fn recall(id: Option<u32>, opens: &BTreeMap<u32, bool>) -> Option<bool>
    ensures { IfSome result (λ yes.
        (i : ℕ) × (id ≡ Some i) × (get nat_cmp opens.now i ≡ Some yes)) }
{
    let Some(i) = id else {
        return None;
    };
    opens.get(&i).copied()
}

/// Notes something of an id.
pub(crate) fn note(
    id: Option<u32>,
    yes: bool,
    opens: &mut BTreeMap<u32, bool>,
) -> Result<(), OutOfMemory>
    ensures { OnOk result (Notes id yes opens.old opens.new) }
{
    let Some(i) = id else {
        return Ok(());
    };
    opens.insert(i, yes)?;
    Ok(())
}
