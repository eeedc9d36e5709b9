//! Narrowing: a rule is applied to a most general instance of a term.
ghost use Rattle.std.specs.Prelude.{◌≡◌, ◌<◌, ℕ, List, Some, All, IsTrue, IfOk, MatchOption};
ghost use Rattle.trs_defs.specs.Tree.{Tree};
ghost use Rattle.trs_defs.specs.Position.{subterm_at};
ghost use Rattle.trs_defs.specs.System.{RewriteRule};
ghost use Rattle.trs_core.specs.SystemLimits.{HasSmallVariables};
ghost use Rattle.trs_core.specs.View.{tree};
ghost use Rattle.trs_unify.specs.Bindings.{stopped_size};
ghost use Rattle.crit_pairs.specs.Apart.{renamed_apart};
ghost use Rattle.loop_find.specs.Bindings.{resolved};
ghost use Rattle.loop_find.specs.Flat.{AreTokensOf};
ghost use Rattle.loop_find.specs.Narrowed.{NarrowsTo, NarrowsNot, IsMade, IsLarge};

use crate::binding::{Binding, quick_bindings};
use crate::clashing::clash;
use crate::closures::Sides;
use crate::counting::{is_large, is_large_without};
use crate::tokens::{SideTokens, term_tokens};
use crate::unifying::narrow_by_unifier;
use crate::writing::{write, write_replaced};
use std::alloc::Global;
use trs_core::{OutOfMemory, Rule, Term};

/// Whether it is seen at once that the rule gives no small closure at a place of the right side,
/// where `part` stands: symbols differ, or what is not replaced is too large, or what is put there.
/// It takes no memory.
pub(crate) fn is_refused(right_size: u64, part: &Term, rule: &Rule) -> bool
    ensures { IsTrue result → (place : List ℕ) (left right : Tree)
        → right_size ≡ stopped_size right → subterm_at place right ≡ Some (tree part.now)
        → HasSmallVariables left → HasSmallVariables right
        → NarrowsNot rule.now place left right }
{
    if clash(part, &rule.left) {
        return true;
    }
    if is_large_without(right_size, part) {
        return true;
    }
    is_large(&rule.right)
}

/// The sides of the closure that the rule, which is renamed apart, gives at a place of the right
/// side, where `part` stands. `None` where there is none, or it would not be small. Mostly it takes
/// only the memory of what it gives.
pub(crate) fn narrow(
    alloc: Global,
    left: &Term,
    right: &Term,
    part: &Term,
    place: &[u8],
    apart: &Rule,
) -> Result<Option<SideTokens>, OutOfMemory>
    requires there { subterm_at place.now (tree right.now) ≡ Some (tree part.now) }
    requires positive { All (λ n. 0 < n) place.now }
    requires left { HasSmallVariables (tree left.now) }
    requires right { HasSmallVariables (tree right.now) }
    ensures { IfOk result (λ found. (rule : RewriteRule) → apart.now ≡ renamed_apart rule
        → MatchOption found
        (NarrowsNot rule place.now (tree left.now) (tree right.now))
        (NarrowsTo rule place.now (tree left.now) (tree right.now))) }
{
    match quick_bindings(alloc, part, &apart.left)? {
        Some(found) => {
            let made = narrow_by(alloc, &found, left, right, place, &apart.right)?;
            Ok(made)
        }
        None => match narrow_by_unifier(alloc, left, right, part, place, apart)? {
            None => Ok(None),
            Some(sides) => {
                let tokens = side_tokens(alloc, &sides)?;
                Ok(Some(tokens))
            }
        },
    }
}

/// The sides under bindings, with the term put at the place of the right side.
fn narrow_by(
    alloc: Global,
    found: &[Binding],
    left: &Term,
    right: &Term,
    place: &[u8],
    by: &Term,
) -> Result<Option<SideTokens>, OutOfMemory>
    ensures { IfOk result (λ made. MatchOption made
        (IsLarge (resolved found.now 2) (tree left.now) (tree right.now) place.now (tree by.now))
        (IsMade (resolved found.now 2) (tree left.now) (tree right.now) place.now (tree by.now))) }
{
    let mut names = Vec::new(alloc);
    let mut new_left = Vec::with_capacity(alloc, 64)?;
    if !write(found, 2, left, &mut names, &mut new_left)? {
        return Ok(None);
    }
    let mut new_right = Vec::with_capacity(alloc, 64)?;
    if !write_replaced(found, right, Some(place), by, &mut names, &mut new_right)? {
        return Ok(None);
    }
    Ok(Some(SideTokens {
        left: new_left,
        right: new_right,
    }))
}

/// The tokens of both sides.
fn side_tokens(alloc: Global, sides: &Sides) -> Result<SideTokens, OutOfMemory>
    ensures { IfOk result (λ tokens.
        AreTokensOf tokens (tree sides.now.left) (tree sides.now.right)) }
{
    Ok(SideTokens {
        left: term_tokens(alloc, &sides.left)?,
        right: term_tokens(alloc, &sides.right)?,
    })
}
