//! Right sides with no variable: each is the same in all peaks, so that it gets its id but once.
ghost use Rattle.std.specs.Prelude.{◌≡◌, ◌↔◌, IfOk, IfSome, IsTrue, OnOk, Some, length, slice_get, take};
ghost use Rattle.trs_core.specs.View.{tree};
ghost use Rattle.term_pool.specs.LeftSides.{IsGround};
ghost use Rattle.term_pool.specs.Pooled.{Extends};
ghost use Rattle.crit_pairs.specs.GroundSides.{IsGroundSide, AreGroundRights, HaveGroundResults};
ghost use Rattle.crit_pairs.specs.GroundSides.{IsLargeResult};

use std::alloc::Global;
use term_pool::Pool;
use trs_core::{OutOfMemory, Rule, Term, least_variable};

/// From so many nodes on a term with no variable takes longer to count than to find by its id.
const MANY_NODES: u64 = 128;

/// Whether the term has no variable and many nodes. Where such a right side is a result of many
/// critical peaks, a pool in which it has one id gains time.
pub fn is_large_result(t: &Term) -> bool
    ensures { IsTrue result ↔ IsLargeResult (tree t.now) }
{
    if t.size() < MANY_NODES {
        return false;
    }
    is_ground(t)
}

/// Whether the term has no variable.
pub(crate) fn is_ground(t: &Term) -> bool
    ensures { IsTrue result ↔ IsGround (tree t.now) }
{
    let least = least_variable(t, 0, None);
    match least {
        Some(_) => false,
        None => true,
    }
}

/// A right side with no variable: its id in a pool, and its number of nodes.
#[derive(Clone, Copy)]
pub(crate) struct GroundSide {
    pub id: u32,
    pub size: u64,
}

/// Both results of a peak, where they have no variable.
#[derive(Clone, Copy)]
pub(crate) struct GroundResults {
    pub left: GroundSide,
    pub right: GroundSide,
}

/// Adds the right sides of the rules behind the first ones, whose right sides are there.
pub(crate) fn add_ground_rights(
    alloc: Global,
    rules: &[Rule],
    rights: Vec<Option<GroundSide>>,
    pool: &mut Pool,
) -> Result<Vec<Option<GroundSide>>, OutOfMemory>
    requires { AreGroundRights (take (length rights.items) rules.now) pool.old rights.items }
    ensures rights { IfOk result (λ sides. AreGroundRights rules.now pool.new sides.items) }
    ensures kept { Extends pool.old pool.new }
{
    let known = rights.len();
    let mut sides = rights;
    for k in known..rules.len() {
        let rule = &rules[k];
        let side = ground_side(alloc, &rule.right, pool)?;
        sides.push(side)?;
    }
    Ok(sides)
}

/// The term's id, if it has no variable and keeps the limits on computed terms.
fn ground_side(alloc: Global, t: &Term, pool: &mut Pool) -> Result<Option<GroundSide>, OutOfMemory>
    ensures side { IfOk result (λ found. IfSome found (IsGroundSide pool.new (tree t.now))) }
    ensures kept { Extends pool.old pool.new }
{
    let least = least_variable(t, 0, None);
    if let Some(_) = least {
        return Ok(None);
    }
    if !t.is_within_limits() {
        return Ok(None);
    }
    let id = pool.intern(alloc, t)?;
    let size = t.size();
    Ok(Some(GroundSide { id, size }))
}

/// The results of the peak of two rules at a place, if this is the root and neither right side has a
/// variable.
pub(crate) fn ground_results(
    rights: &[Option<GroundSide>],
    place: &[u8],
    inner: usize,
    outer: usize,
) -> Option<GroundResults>
    ensures { IfSome result (λ found.
        HaveGroundResults place.now inner outer rights.now found.left found.right) }
{
    if !place.is_empty() {
        return None;
    }
    let left = ground_right(rights, inner)?;
    let right = ground_right(rights, outer)?;
    Some(GroundResults { left, right })
}

/// The right side of a rule, if it has no variable.
fn ground_right(rights: &[Option<GroundSide>], k: usize) -> Option<GroundSide>
    ensures { IfSome result (λ side. slice_get rights.now k ≡ Some (Some side)) }
{
    match rights.get(k) {
        Some(side) => *side,
        None => None,
    }
}
