//! Rules whose left side equals that of one before them.
ghost use Rattle.std.specs.Prelude.{◌≡◌, ◌<◌, IfOk, length, slice_get};
ghost use Rattle.crit_pairs.specs.EqualLefts.{left_side, NameEqualLefts};

use crate::equal_rules::hash_after;
use std::alloc::Global;
use std::collections::HashMap;
use trs_core::{OutOfMemory, Rule};

/// For each rule one with its left side: the first one, but where two left sides have one hash.
pub(crate) fn equal_lefts(alloc: Global, rules: &[Rule]) -> Result<Vec<usize>, OutOfMemory>
    ensures { IfOk result (λ firsts. NameEqualLefts rules.now firsts.items) }
{
    let mut firsts = Vec::with_capacity(alloc, rules.len())?;
    let mut by_hash = HashMap::new(alloc);
    for k in 0..rules.len() {
        firsts.push(first_with_left(rules, k, &mut by_hash)?)?;
    }
    Ok(firsts)
}

/// The first rule with the left side of rule `k`, or this one. For each hash the first rule is noted.
fn first_with_left(
    rules: &[Rule],
    k: usize,
    by_hash: &mut HashMap<u64, usize>,
) -> Result<usize, OutOfMemory>
    requires { k < length rules.now }
    ensures { IfOk result (λ first.
        left_side (slice_get rules.now first) ≡ left_side (slice_get rules.now k)) }
{
    let rule = &rules[k];
    let hash = hash_after(0, &rule.left);
    let Some(first) = by_hash.get(&hash).copied() else {
        by_hash.insert(hash, k)?;
        return Ok(k);
    };
    match rules.get(first) {
        Some(other) if other.left.same(&rule.left) => Ok(first),
        _ => Ok(k),
    }
}
