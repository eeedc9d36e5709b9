ghost use Rattle.std.specs.Prelude.{◌↔◌, IsTrue};
ghost use Rattle.trs_defs.specs.Variable.{IsLinear};
ghost use Rattle.rewrite_core.specs.Check.{Answers};
ghost use Rattle.closed_pairs.specs.LinearRules.{are_left_linear, are_linear};

use rewrite_core::{CheckFault, StepRefused};
use trs_core::{Rule, Trs};

/// Sees that each left side is linear. It takes no memory.
pub(crate) fn left_linear_check(trs: &Trs) -> Result<(), CheckFault>
    ensures answers { Answers (are_left_linear trs.now.rules) result }
{
    for (n, rule) in trs.rules().iter().enumerate() {
        if !rule.left.is_linear() {
            return Err(CheckFault::Refused(StepRefused::NotLinear(n as u64)));
        }
    }
    Ok(())
}

/// Sees that both sides of each rule are linear. It takes no memory.
pub fn linear_check(trs: &Trs) -> Result<(), CheckFault>
    ensures answers { Answers (are_linear trs.now.rules) result }
{
    for (n, rule) in trs.rules().iter().enumerate() {
        if !has_linear_sides(rule) {
            return Err(CheckFault::Refused(StepRefused::NotLinear(n as u64)));
        }
    }
    Ok(())
}

fn has_linear_sides(rule: &Rule) -> bool
    ensures { IsTrue result ↔ (IsLinear rule.now.left × IsLinear rule.now.right) }
{
    rule.left.is_linear() && rule.right.is_linear()
}
