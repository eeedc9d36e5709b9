//! Narrowing by a unifier in shared form.
ghost use Rattle.std.specs.Prelude.{◌≡◌, ◌≢◌, ◌<◌, ◌↔◌, Some, None, All, IsTrue, IfOk, MatchOption};
ghost use Rattle.trs_defs.specs.Position.{subterm_at, replaced_at};
ghost use Rattle.trs_defs.specs.Substitution.{apply, bound};
ghost use Rattle.trs_defs.specs.System.{RewriteRule};
ghost use Rattle.trs_core.specs.SystemLimits.{HasSmallVariables};
ghost use Rattle.trs_core.specs.View.{tree};
ghost use Rattle.crit_pairs.specs.Apart.{renamed_apart};
ghost use Rattle.loop_find.specs.Closures.{IsSmallSide};
ghost use Rattle.loop_find.specs.Narrowed.{NarrowsToTerms, NarrowsNot};

use crate::closures::Sides;
use crate::writing::MOST_NODES;
use std::alloc::Global;
use trs_core::{OutOfMemory, Position, Rule, Term};
use trs_unify::{Unifier, no_names, unify};

/// The sides of the closure that the rule, which is renamed apart, gives at a place of the right
/// side, where `part` stands. `None` where there is none, or it would not be small.
pub(crate) fn narrow_by_unifier(
    alloc: Global,
    left: &Term,
    right: &Term,
    part: &Term,
    place: &[u8],
    apart: &Rule,
) -> Result<Option<Sides>, OutOfMemory>
    requires there { subterm_at place.now (tree right.now) ≡ Some (tree part.now) }
    requires positive { All (λ n. 0 < n) place.now }
    requires left { HasSmallVariables (tree left.now) }
    requires right { HasSmallVariables (tree right.now) }
    ensures { IfOk result (λ found. (rule : RewriteRule) → apart.now ≡ renamed_apart rule
        → MatchOption found
        (NarrowsNot rule place.now (tree left.now) (tree right.now))
        (NarrowsToTerms rule place.now (tree left.now) (tree right.now))) }
{
    let found = unify(alloc, part, &apart.left)?;
    let Some(unifier) = found else {
        return Ok(None);
    };
    if !is_small(&unifier, left) {
        return Ok(None);
    }
    let result = contract(alloc, right, place, &apart.right)?;
    if !is_small(&unifier, &result) {
        return Ok(None);
    }
    let mut names = no_names(alloc);
    let new_left = unifier.renumber(alloc, left, &mut names)?;
    let new_right = unifier.renumber(alloc, &result, &mut names)?;
    Ok(Some(Sides {
        left: new_left,
        right: new_right,
    }))
}

/// Whether the instance of a term is small.
fn is_small(unifier: &Unifier, t: &Term) -> bool
    ensures { IsTrue result ↔ IsSmallSide (apply (bound unifier.now) (tree t.now)) }
{
    match unifier.small_size(t) {
        None => false,
        Some(n) => n <= MOST_NODES as u64,
    }
}

/// The term with another one at the place.
fn contract(alloc: Global, right: &Term, place: &[u8], by: &Term) -> Result<Term, OutOfMemory>
    requires there { subterm_at place.now (tree right.now) ≢ None }
    requires positive { All (λ n. 0 < n) place.now }
    ensures { IfOk result (λ u.
        replaced_at place.now (tree right.now) (tree by.now) ≡ Some (tree u)) }
{
    if place.is_empty() {
        return by.copy(alloc);
    }
    let mut result = right.copy(alloc)?;
    result.put(&Position::of(alloc, place)?, by.copy(alloc)?);
    Ok(result)
}
