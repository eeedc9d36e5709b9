//! Pairs as rules on marked terms.
ghost use Rattle.std.specs.Prelude.{◌≡◌, ◌<◌, ◌↔◌, All, IfOk, IsTrue, map};
ghost use Rattle.trs_core.specs.View.{tree};
ghost use Rattle.pair_theory.specs.Marked.{mark};
ghost use Rattle.pair_theory.specs.ReductionPair.{marked_rule};
ghost use Rattle.dp_core.specs.Markable.{IsMarkable};

use crate::lent::LentRule;
use dp_core::{MARK, Side, Sides, marked_term};
use std::alloc::Global;
use std::marker::Model;
use std::rc::Rc;
use trs_core::{Args, OutOfMemory, Term};

/// A pair as a rule whose sides have marked roots. Its left side may serve other pairs too.
#[derive(Drop)]
pub struct MarkedRule {
    left: Rc<Term>,
    right: Term,
}

impl Model for MarkedRule {
    ghost use Rattle.trs_defs.specs.System.{RewriteRule, rule_code};
    ghost use Rattle.trs_core.specs.View.{tree};

    ghost Value = { RewriteRule };

    ghost coded = { rule_code };

    ghost view = { λ a. record { left = tree a.left.value; right = tree a.right } };
}

/// The pairs as rules whose sides have marked roots. Pairs that follow one another with equal left
/// sides share one term, so that many pairs of one large rule take little memory.
pub fn marked_rules(alloc: Global, pairs: &[Sides]) -> Result<Vec<MarkedRule>, OutOfMemory>
    requires { All IsMarkable pairs.now }
    ensures { IfOk result (λ rules. rules.items ≡ map marked_rule pairs.now) }
{
    let mut rules = Vec::with_capacity(alloc, pairs.len())?;
    for pair in pairs {
        let rule = marked_rule(alloc, rules.last(), pair)?;
        rules.push(rule)?;
    }
    Ok(rules)
}

/// The marked rules, in order.
pub fn lend_marked<'a>(
    alloc: Global,
    rules: &'a [MarkedRule],
) -> Result<Vec<LentRule<'a>>, OutOfMemory>
    ensures { IfOk result (λ lent. lent.items ≡ rules.now) }
{
    let mut lent = Vec::with_capacity(alloc, rules.len())?;
    for rule in rules {
        lent.push(lend(rule))?;
    }
    Ok(lent)
}

fn lend(rule: &MarkedRule) -> LentRule<'_>
    ensures { result ≡ rule.now }
{
    LentRule {
        left: &rule.left,
        right: &rule.right,
    }
}

/// A pair as a rule, which shares the left side of the one before it where that is equal.
fn marked_rule(
    alloc: Global,
    before: Option<&MarkedRule>,
    pair: &Sides,
) -> Result<MarkedRule, OutOfMemory>
    requires { IsMarkable pair.now }
    ensures { IfOk result (λ rule. rule ≡ marked_rule pair.now) }
{
    Ok(MarkedRule {
        left: marked_left(alloc, before, &pair.from)?,
        right: marked_term(alloc, &pair.to)?,
    })
}

fn marked_left(
    alloc: Global,
    before: Option<&MarkedRule>,
    side: &Side,
) -> Result<Rc<Term>, OutOfMemory>
    requires { side.now.symbol < 4096 }
    ensures { IfOk result (λ left. tree left.value ≡ mark side.now) }
{
    if let Some(rule) = before {
        if is_marked(&rule.left, side) {
            return Ok(rule.left.clone()?);
        }
    }
    Ok(Rc::new(alloc, marked_term(alloc, side)?)?)
}

/// Whether the term is the side with its root marked.
fn is_marked(t: &Term, side: &Side) -> bool
    requires { side.now.symbol < 4096 }
    ensures { IsTrue result ↔ (tree t.now ≡ mark side.now) }
{
    match t {
        Term::Var(_) => false,
        Term::App(f, args) => *f == side.symbol + MARK && same_args(args, side.args),
    }
}

fn same_args(args: &Args, others: &Args) -> bool
    ensures { IsTrue result ↔ (args.now ≡ others.now) }
{
    are_same(&args.items, &others.items)
}

fn are_same(terms: &[Term], others: &[Term]) -> bool
    ensures { IsTrue result ↔ (map tree terms.now ≡ map tree others.now) }
{
    if terms.len() != others.len() {
        return false;
    }
    for (i, t) in terms.iter().enumerate() {
        if !t.same(&others[i]) {
            return false;
        }
    }
    true
}
