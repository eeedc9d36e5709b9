//! Rules by their numbers.
ghost use Rattle.std.specs.Prelude.{◌≡◌, ◌<◌, All, IfOk, length};
ghost use Rattle.order_search.specs.dp_core.Numbered.{AreItemsOf};

use std::alloc::Global;
use trs_core::{OutOfMemory, Rule};

/// The rules of these numbers, in order.
pub(crate) fn choose_rules(
    alloc: Global,
    rules: &[Rule],
    numbers: &[u32],
) -> Result<Vec<Rule>, OutOfMemory>
    requires { All (λ n. n < length rules.now) numbers.now }
    ensures { IfOk result (λ chosen. AreItemsOf rules.now numbers.now chosen.items) }
{
    let mut chosen = Vec::with_capacity(alloc, numbers.len())?;
    for n in numbers {
        let rule = &rules[*n as usize];
        chosen.push(copy_rule(alloc, rule)?)?;
    }
    Ok(chosen)
}

fn copy_rule(alloc: Global, rule: &Rule) -> Result<Rule, OutOfMemory>
    ensures { IfOk result (λ copy. copy ≡ rule.now) }
{
    Ok(Rule {
        left: rule.left.copy(alloc)?,
        right: rule.right.copy(alloc)?,
    })
}
