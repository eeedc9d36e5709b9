//! Rules and marked pairs alike.
ghost use Rattle.std.specs.Prelude.{◌≡◌, IfOk};

use std::alloc::Global;
use std::marker::Model;
use trs_core::{OutOfMemory, Rule, Term};

/// The sides of a rule, or of a marked pair, lent by what keeps them. Contracts see a rule.
#[derive(Drop)]
pub struct LentRule<'a> {
    pub left: &'a Term,
    pub right: &'a Term,
}

impl<'a> Model for LentRule<'a> {
    ghost use Rattle.trs_defs.specs.System.{RewriteRule, rule_code};
    ghost use Rattle.trs_core.specs.View.{tree};

    ghost Value = { RewriteRule };

    ghost coded = { rule_code };

    ghost view = { λ a. record { left = tree a.left.now; right = tree a.right.now } };
}

/// The rules, in order.
pub fn lend_rules<'a>(alloc: Global, rules: &'a [Rule]) -> Result<Vec<LentRule<'a>>, OutOfMemory>
    ensures { IfOk result (λ lent. lent.items ≡ rules.now) }
{
    let mut lent = Vec::with_capacity(alloc, rules.len())?;
    for rule in rules {
        lent.push(lend(rule))?;
    }
    Ok(lent)
}

fn lend(rule: &Rule) -> LentRule<'_>
    ensures { result ≡ rule.now }
{
    LentRule {
        left: &rule.left,
        right: &rule.right,
    }
}
