ghost use Rattle.std.specs.Prelude.{◌≡◌, ◌≤◌, IfOk};
ghost use Rattle.trs_core.specs.View.{tree};
ghost use Rattle.sampling.specs.Family.{base_rule, step_right, step_rule, rules_to};

use crate::terms::{function, successor, zero};
use std::alloc::Global;
use trs_core::{OutOfMemory, Rule, Term};

/// The rules of the functions before a number.
pub fn rules(alloc: Global, n: u32) -> Result<Vec<Rule>, OutOfMemory>
    requires { n ≤ 512 }
    ensures { IfOk result (λ rules. rules.items ≡ rules_to n) }
{
    let mut rules = Vec::with_capacity(alloc, 2 * n as usize)?;
    for i in 0..n {
        rules.push(base_rule(alloc, i)?)?;
        rules.push(step_rule(alloc, i)?)?;
    }
    Ok(rules)
}

fn base_rule(alloc: Global, i: u32) -> Result<Rule, OutOfMemory>
    requires { i ≤ 512 }
    ensures { IfOk result (λ rule. rule ≡ base_rule i) }
{
    Ok(Rule {
        left: function(alloc, i, zero(alloc), Term::Var(0))?,
        right: Term::Var(0),
    })
}

fn step_rule(alloc: Global, i: u32) -> Result<Rule, OutOfMemory>
    requires { i ≤ 512 }
    ensures { IfOk result (λ rule. rule ≡ step_rule i) }
{
    let first = successor(alloc, Term::Var(0))?;
    Ok(Rule {
        left: function(alloc, i, first, Term::Var(1))?,
        right: step_right(alloc, i)?,
    })
}

fn step_right(alloc: Global, i: u32) -> Result<Term, OutOfMemory>
    requires { i ≤ 512 }
    ensures { IfOk result (λ right. tree right ≡ step_right i) }
{
    if i == 0 {
        let sum = function(alloc, 0, Term::Var(0), Term::Var(1))?;
        return successor(alloc, sum);
    }
    let before = function(alloc, i - 1, Term::Var(1), Term::Var(1))?;
    function(alloc, i, Term::Var(0), before)
}
