//! Rules renamed apart, each copied when an attempt first needs it.
ghost use Rattle.std.specs.Prelude.{◌≡◌, ◌<◌, ℕ, Some, length, slice_get, IfOk, OnOk, MatchOption};
ghost use Rattle.trs_defs.specs.System.{RewriteRule};
ghost use Rattle.trs_core.specs.SystemLimits.{HasSmallVariables};
ghost use Rattle.trs_core.specs.View.{tree};
ghost use Rattle.crit_pairs.specs.Apart.{renamed_apart};
ghost use Rattle.loop_find.specs.ApartRules.{AreCopies};
ghost use Rattle.loop_find.specs.Narrowed.{NarrowsTo, NarrowsNot};
ghost use Rattle.loop_find.specs.Trials.{IsPart};

use crate::narrowing::narrow;
use crate::tokens::SideTokens;
use crate::trying::Trial;
use std::alloc::Global;
use trs_core::{MOST_VARIABLES, OutOfMemory, Rule, Term};
use trs_unify::rename_apart;

/// So many copies that are not there yet.
pub(crate) fn no_copies(alloc: Global, count: usize) -> Result<Vec<Option<Rule>>, OutOfMemory>
    ensures count { IfOk result (λ copies. length copies.items ≡ count) }
    ensures none { IfOk result (λ copies. (k : ℕ) (copy : RewriteRule)
        → slice_get copies.items k ≡ Some (Some copy) → ⊥) }
{
    let mut copies = Vec::with_capacity(alloc, count)?;
    for _ in 0..count {
        copies.push(None)?;
    }
    Ok(copies)
}

/// The sides of the closure that rule `k` gives at a place of the right side, where `part` stands.
/// `None` where there is none, or it would not be small.
pub(crate) fn narrow_with(
    alloc: Global,
    trial: &Trial,
    part: &Term,
    place: &[u8],
    k: usize,
    copies: &mut Vec<Option<Rule>>,
) -> Result<Option<SideTokens>, OutOfMemory>
    requires part { IsPart trial.now place.now (tree part.now) }
    requires left { HasSmallVariables (tree trial.now.left.now) }
    requires right { HasSmallVariables (tree trial.now.right.now) }
    requires rule { k < length trial.now.trs.now.rules }
    requires copies { AreCopies trial.now.trs.now.rules copies.old.items }
    ensures narrowed { IfOk result (λ found. (rule : RewriteRule)
        → slice_get trial.now.trs.now.rules k ≡ Some rule
        → MatchOption found
        (NarrowsNot rule place.now (tree trial.now.left.now) (tree trial.now.right.now))
        (NarrowsTo rule place.now (tree trial.now.left.now) (tree trial.now.right.now))) }
    ensures copies { OnOk result (AreCopies trial.now.trs.now.rules copies.new.items) }
{
    if let Some(apart) = &copies[k] {
        let found = narrow(alloc, trial.left, trial.right, part, place, apart)?;
        return Ok(found);
    }
    let apart = renamed_rule(alloc, &trial.trs.rules()[k])?;
    let found = narrow(alloc, trial.left, trial.right, part, place, &apart)?;
    copies[k] = Some(apart);
    Ok(found)
}

/// A copy of a rule, renamed apart.
fn renamed_rule(alloc: Global, rule: &Rule) -> Result<Rule, OutOfMemory>
    requires left { HasSmallVariables rule.now.left }
    requires right { HasSmallVariables rule.now.right }
    ensures { IfOk result (λ r. r ≡ renamed_apart rule.now) }
{
    Ok(Rule {
        left: rename_apart(alloc, &rule.left, MOST_VARIABLES)?,
        right: rename_apart(alloc, &rule.right, MOST_VARIABLES)?,
    })
}
