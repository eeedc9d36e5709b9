ghost use Rattle.std.specs.Prelude.{ℕ, ◌≡◌, ◌≤◌, ◌<◌, ◌+◌, ◌++◌, Bool, false, All, List, None, IsTrue, length};
ghost use Rattle.trs_defs.specs.Member.{In};
ghost use Rattle.trs_defs.specs.System.{RewriteRule};
ghost use Rattle.trs_core.specs.View.{tree};
ghost use Rattle.pair_theory.specs.DependencyPair.{DependencyPair};
ghost use Rattle.rewrite_core.specs.Check.{Answers, ForbidsAny};
ghost use Rattle.rewrite_core.specs.declared.checks.refusals.StepRefused.TheVariants.{NoEntry};
ghost use Rattle.dp_core.specs.Numbered.{AreItemsOf, ArePairsOf, numbers_from};
ghost use Rattle.dp_core.specs.SubtermConditions.{roots_of};
ghost use Rattle.dp_core.specs.Symbols.{symbols_of, symbols_of_rules};
ghost use Rattle.dp_core.specs.LeastLacking.{least_lacking, lacking_with, lower_of};
ghost use Rattle.dp_core.specs.Markable.{IsMarkable};

use crate::{MARK, Side, Sides};
use pair_order::ReductionPair;
use rewrite_core::{CheckFault, StepRefused};
use trs_core::{Rule, Term, Trs, systems_are_valid};

/// The least symbol of a term with no entry, or the least so far. It takes no memory.
pub fn least_lacking<O: ReductionPair>(order: &O, least: Option<u32>, t: &Term) -> Option<u32>
    ensures { result ≡ least_lacking (O.has order.now) least (symbols_of (tree t.now)) }
{
    match t {
        Term::Var(_) => least,
        Term::App(f, args) => {
            let mut found = lacking_with(least, *f, order.has_entry(*f));
            for arg in &args.items {
                found = least_lacking(order, found, arg);
            }
            found
        }
    }
}

/// The least symbol with no entry, with one symbol more that has one or not.
fn lacking_with(least: Option<u32>, f: u32, has_entry: bool) -> Option<u32>
    ensures { (has : ℕ → Bool) → has_entry ≡ has f → result ≡ lacking_with has least f }
{
    if has_entry {
        least
    } else {
        Some(lower_of(least, f))
    }
}

fn lower_of(least: Option<u32>, f: u32) -> u32
    ensures { result ≡ lower_of least f }
{
    match least {
        None => f,
        Some(g) => { if f < g { f } else { g } }
    }
}

/// The least symbol with no entry of the rules with these numbers.
pub fn lacking_in_rules<O: ReductionPair>(order: &O, rules: &[Rule], numbers: &[u32]) -> Option<u32>
    requires { All (λ k. k < length rules.now) numbers.now }
    ensures { (chosen : List RewriteRule) → AreItemsOf rules.now numbers.now chosen →
        result ≡ least_lacking (O.has order.now) None (symbols_of_rules chosen) }
{
    let mut least = None;
    for k in numbers {
        let rule = &rules[*k as usize];
        least = lacking_in_rule(order, least, rule);
    }
    least
}

/// The least symbol of all rules with no entry. Where each symbol of the system has one, no rule is
/// walked.
pub(crate) fn lacking_in_system<O: ReductionPair>(
    order: &O,
    trs: &Trs,
    numbers: &[u32],
) -> Option<u32>
    requires { numbers.now ≡ numbers_from 0 trs.now.rules }
    ensures { result ≡ least_lacking (O.has order.now) None (symbols_of_rules trs.now.rules) }
{
    systems_are_valid(trs);
    if have_entries(order, trs.arities()) {
        return None;
    }
    lacking_in_rules(order, trs.rules(), numbers)
}

/// Whether each symbol of an arity table has an entry.
fn have_entries<O: ReductionPair>(order: &O, arities: &[u8]) -> bool
    requires { length arities.now ≤ 4096 }
    ensures { IsTrue result → (f : ℕ) → f < length arities.now → IsTrue (O.has order.now f) }
{
    for f in 0..arities.len() {
        if !order.has_entry(f as u32) {
            return false;
        }
    }
    true
}

fn lacking_in_rule<O: ReductionPair>(order: &O, least: Option<u32>, rule: &Rule) -> Option<u32>
    ensures { result ≡ least_lacking (O.has order.now) least
        (symbols_of rule.now.left ++ symbols_of rule.now.right) }
{
    let left = least_lacking(order, least, &rule.left);
    least_lacking(order, left, &rule.right)
}

/// The least root of a side of the problem's pairs whose mark has no entry.
pub(crate) fn lacking_root<O: ReductionPair>(
    order: &O,
    pairs: &[Sides],
    problem: &[u32],
) -> Option<u32>
    requires numbers { All (λ n. n < length pairs.now) problem.now }
    requires markable { All IsMarkable pairs.now }
    ensures { (taken : List DependencyPair) → ArePairsOf pairs.now problem.now taken →
        result ≡ least_lacking (λ f. O.has order.now (f + 4096)) None (roots_of taken) }
{
    let mut least = None;
    for n in problem {
        let sides = &pairs[*n as usize];
        least = lacking_roots_with(order, least, sides);
    }
    least
}

/// The least root whose mark has no entry, with those of one pair more.
fn lacking_roots_with<O: ReductionPair>(order: &O, least: Option<u32>, sides: &Sides) -> Option<u32>
    requires { IsMarkable sides.now }
    ensures { result ≡ lacking_with (λ f. O.has order.now (f + 4096))
        (lacking_with (λ f. O.has order.now (f + 4096)) least sides.now.from.symbol)
        sides.now.to.symbol }
{
    let left = lacking_mark(order, least, &sides.from);
    lacking_mark(order, left, &sides.to)
}

fn lacking_mark<O: ReductionPair>(order: &O, least: Option<u32>, side: &Side) -> Option<u32>
    requires { side.now.symbol < 4096 }
    ensures { result ≡ lacking_with (λ f. O.has order.now (f + 4096)) least side.now.symbol }
{
    lacking_with(least, side.symbol, order.has_entry(side.symbol + MARK))
}

/// Refuses the least symbol with no entry, if there is one.
pub(crate) fn entries_check(lacking: Option<u32>) -> Result<(), CheckFault>
    ensures { (has : ℕ → Bool) (symbols : List ℕ) →
        lacking ≡ least_lacking has None symbols →
        Answers (ForbidsAny (λ f. In f symbols × (has f ≡ false)) NoEntry) result }
{
    match lacking {
        Some(f) => Err(CheckFault::Refused(StepRefused::NoEntry(f as u64))),
        None => Ok(()),
    }
}
