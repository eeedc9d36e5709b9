//! Rules that loop.
ghost use Rattle.std.specs.Prelude.{◌≡◌, ◌<◌, ℕ, Some, length, slice_get, IfOk, MatchOption};
ghost use Rattle.trs_defs.specs.System.{RewriteRule};
ghost use Rattle.trs_core.specs.SystemLimits.{AreBytes};
ghost use Rattle.trs_core.specs.View.{tree};
ghost use Rattle.loop_find.specs.Closures.{rule_closure, rule_closures};
ghost use Rattle.loop_find.specs.LoopRow.{LoopsNot, LoopNone, FindsLoop};
ghost use Rattle.loop_find.specs.Tries.{IsFoundOf};

use crate::found::LoopFound;
use crate::instances::{first_instance, may_hold};
use rewrite_core::PathStep;
use std::alloc::Global;
use trs_core::{OutOfMemory, Position, Trs, systems_are_valid};

/// The loop of the first rule that loops as a closure.
pub(crate) fn loop_of_rules(alloc: Global, trs: &Trs) -> Result<Option<LoopFound>, OutOfMemory>
    ensures { IfOk result (λ found. MatchOption found
        (LoopNone trs.now.rules (rule_closures 0 trs.now.rules))
        (λ l. (budget : ℕ) → FindsLoop trs.now.rules budget (tree l.start) l.path.items l.place)) }
{
    systems_are_valid(trs);
    for k in 0..trs.rules().len() {
        if let Some(found) = loop_of_rule(alloc, trs, k)? {
            return Ok(Some(found));
        }
    }
    Ok(None)
}

/// The loop of the rule of this number, if it loops as a closure. Its path is not run: sides of
/// rules keep the limits on computed terms.
fn loop_of_rule(alloc: Global, trs: &Trs, k: usize) -> Result<Option<LoopFound>, OutOfMemory>
    requires arities { AreBytes trs.now.arities }
    requires there { k < length trs.now.rules }
    ensures { IfOk result (λ found. (r : RewriteRule) → slice_get trs.now.rules k ≡ Some r
        → MatchOption found (LoopsNot trs.now.rules (rule_closure k r))
        (IsFoundOf trs.now.rules (rule_closure k r))) }
{
    let rule = &trs.rules()[k];
    if !may_hold(&rule.left, &rule.right) {
        return Ok(None);
    }
    let mut place = Vec::new(alloc);
    if !first_instance(alloc, &rule.left, &rule.right, &mut place)? {
        return Ok(None);
    }
    let start = rule.left.copy(alloc)?;
    let at = Position::of(alloc, &place)?;
    let step = PathStep {
        place: Position::new(alloc),
        rule: k as u32,
    };
    let mut path = Vec::new(alloc);
    path.push(step)?;
    Ok(Some(LoopFound {
        start,
        path,
        place: at,
    }))
}
