ghost use Rattle.std.specs.Prelude.{◌≡◌, ◌≤◌, ◌<◌, All, List, length, zip};
ghost use Rattle.trs_defs.specs.System.{RewriteRule};
ghost use Rattle.trs_core.specs.View.{tree};
ghost use Rattle.pair_theory.specs.Marked.{mark};
ghost use Rattle.pair_theory.specs.DependencyPair.{DependencyPair};
ghost use Rattle.rewrite_core.specs.Check.{Answers, AnswersBy, each, collect};
ghost use Rattle.dp_core.specs.Numbered.{AreItemsOf, ArePairsOf};
ghost use Rattle.dp_core.specs.Markable.{IsMarkable};
ghost use Rattle.dp_core.specs.LeftNumbers.{AreLeftsOf, term_of};
ghost use Rattle.dp_core.specs.PairConditions.{comparing_by, is_weakly_above, rule_is_weak};
ghost use Rattle.dp_core.specs.PairConditions.{pair_is_weak};

use crate::Sides;
use crate::lefts::{Left, Lefts, left_of};
use crate::sides::marked_term;
use crate::subterm::add;
use pair_order::{Decrease, ReductionPair};
use rewrite_core::{CheckFault, StepRefused};
use std::alloc::Global;
use trs_core::{Rule, Term};

/// Sees that the rules with these numbers are weak.
pub(crate) fn rules_check<O: ReductionPair>(
    order: &O,
    rules: &[Rule],
    numbers: &[u32],
) -> Result<(), CheckFault>
    requires { All (λ k. k < length rules.now) numbers.now }
    ensures { (chosen : List RewriteRule) → AreItemsOf rules.now numbers.now chosen →
        Answers (each (λ _ item. rule_is_weak (comparing_by (O.has order.now)
        (O.is_too_big order.now) (O.is_weak order.now) (O.is_strict order.now)) item.0 item.1)
        0 (zip numbers.now chosen)) result }
{
    for k in numbers {
        rule_check(order, *k, &rules[*k as usize])?;
    }
    Ok(())
}

fn rule_check<O: ReductionPair>(order: &O, k: u32, rule: &Rule) -> Result<(), CheckFault>
    ensures { Answers (rule_is_weak (comparing_by (O.has order.now)
        (O.is_too_big order.now) (O.is_weak order.now) (O.is_strict order.now)) k rule.now) result }
{
    let number = k as u64;
    weak_check(
        order,
        &rule.left,
        &rule.right,
        number,
        StepRefused::RuleNotWeak(number),
    )
}

/// Of each pair of the problem, whether it is strict. Each must be weak. What is worked out of a left
/// side serves the pairs that follow with it.
pub(crate) fn strict_pairs<O: ReductionPair>(
    alloc: Global,
    order: &O,
    rules: usize,
    pairs: &[Sides],
    lefts: &Lefts,
    problem: &[u32],
) -> Result<Vec<bool>, CheckFault>
    requires few { rules ≤ 4095 }
    requires numbers { All (λ n. n < length pairs.now) problem.now }
    requires markable { All IsMarkable pairs.now }
    requires lefts { AreLeftsOf lefts.now pairs.now }
    ensures { (taken : List DependencyPair) → ArePairsOf pairs.now problem.now taken →
        AnswersBy (λ strict. strict.items) (collect (λ _ item. pair_is_weak (comparing_by
        (O.has order.now) (O.is_too_big order.now) (O.is_weak order.now) (O.is_strict order.now))
        rules item.0 item.1) 0 (zip problem.now taken)) result }
{
    let mut strict = Vec::new(alloc);
    let mut last = None;
    for n in problem {
        let sides = &pairs[*n as usize];
        let number = lefts.numbers[*n as usize];
        let left = left_of(alloc, order, last, &lefts.kept, number, &sides.from)?;
        let flag = is_strict_pair(alloc, order, rules, *n, &left, sides)?;
        last = Some(left);
        add(&mut strict, flag)?;
    }
    Ok(strict)
}

/// Whether pair number `n` is strict, where its left side is at hand. It must be weak.
fn is_strict_pair<O: ReductionPair>(
    alloc: Global,
    order: &O,
    rules: usize,
    n: u32,
    left: &Left<O::Profile>,
    sides: &Sides,
) -> Result<bool, CheckFault>
    requires few { rules ≤ 4095 }
    requires markable { IsMarkable sides.now }
    requires left { tree (term_of left.now.term) ≡ mark sides.now.from }
    requires profile { O.is_profile order.now
        (tree (term_of left.now.term)) left.now.profile }
    ensures { AnswersBy (λ strict. strict) (pair_is_weak (comparing_by (O.has order.now)
        (O.is_too_big order.now) (O.is_weak order.now) (O.is_strict order.now))
        rules n sides.now) result }
{
    let right = marked_term(alloc, &sides.to)?;
    match order.decrease(left.term.get(), &left.profile, &right) {
        Err(_) => {
            let item = rules as u64 + n as u64;
            Err(CheckFault::Refused(StepRefused::TooBig(item)))
        }
        Ok(Decrease::Missing) => Err(CheckFault::Refused(StepRefused::PairNotWeak(n as u64))),
        Ok(Decrease::Weak) => Ok(false),
        Ok(Decrease::Strict) => Ok(true),
    }
}

/// Sees that the first term is weakly above the second one.
fn weak_check<O: ReductionPair>(
    order: &O,
    left: &Term,
    right: &Term,
    item: u64,
    otherwise: StepRefused,
) -> Result<(), CheckFault>
    ensures { Answers (is_weakly_above (comparing_by (O.has order.now)
        (O.is_too_big order.now) (O.is_weak order.now) (O.is_strict order.now))
        (tree left.now) (tree right.now) item otherwise) result }
{
    match order.weak(left, right) {
        Err(_) => Err(CheckFault::Refused(StepRefused::TooBig(item))),
        Ok(true) => Ok(()),
        Ok(false) => Err(CheckFault::Refused(otherwise)),
    }
}
