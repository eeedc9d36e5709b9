ghost use Rattle.std.specs.Prelude.{◌≡◌, ◌<◌, ℕ, All, List, None, length, zip};
ghost use Rattle.trs_defs.specs.System.{RewriteRule};
ghost use Rattle.pair_theory.specs.DependencyPair.{DependencyPair, dependency_pairs};
ghost use Rattle.rewrite_core.specs.Check.{AnswersBy};
ghost use Rattle.dp_core.specs.PlacedPairs.{placed_pairs};
ghost use Rattle.dp_core.specs.Numbered.{AreItemsOf, ArePairsOf};
ghost use Rattle.dp_core.specs.LeastLacking.{least_lacking};
ghost use Rattle.dp_core.specs.PairConditions.{comparing_by, removal_conditions, pair_conditions};

use crate::comparing::{rules_check, strict_pairs};
use crate::entries::{entries_check, lacking_in_system, lacking_root};
use crate::numbers::rule_numbers;
use crate::subterm::left_over;
use crate::{DpPair, Pairs};
use pair_order::ReductionPair;
use pair_theory::dependency_pairs_suffice;
use rewrite_core::CheckFault;
use std::alloc::Global;
use trs_core::Trs;

/// The pairs of a problem that remain by a reduction pair, for one step alone: all rules are weak,
/// and each pair is weak and stays or is strict. Refused are, in this order: the least symbol of the
/// rules with no entry, then the least root of the pairs with no marked one (`NoEntry`); a rule, in
/// order, that is too big to be compared (`TooBig`) or not weak (`RuleNotWeak`); a pair likewise
/// (`TooBig`, of the number of rules plus its own, and `PairNotWeak`); a step where no pair is
/// strict (`NothingRemoved`). (Arts and Giesl, 2000.)
pub fn pair_check<O: ReductionPair>(
    alloc: Global,
    trs: &Trs,
    all: &[DpPair],
    problem: &[u32],
    order: &O,
) -> Result<Vec<u32>, CheckFault>
    requires all { all.now ≡ placed_pairs trs.now.rules }
    requires numbers { All (λ n. n < length (dependency_pairs trs.now.rules)) problem.now }
    ensures answers { AnswersBy (λ left. left.items) (pair_conditions (comparing_by
        (O.has order.now) (O.is_too_big order.now) (O.is_weak order.now) (O.is_strict order.now))
        trs.now.rules (dependency_pairs trs.now.rules) problem.now) result }
{
    let pairs = Pairs::of(alloc, trs, all)?;
    pairs.pair_check(alloc, trs, problem, order)
}

impl<'a> Pairs<'a> {
    /// The pairs of a problem that remain by a reduction pair, and the refusals, as `pair_check` has
    /// them. It looks at the rules, and at the sides of the problem's pairs alone.
    pub fn pair_check<O: ReductionPair>(
        &self,
        alloc: Global,
        trs: &Trs,
        problem: &[u32],
        order: &O,
    ) -> Result<Vec<u32>, CheckFault>
        requires pairs { self.now ≡ dependency_pairs trs.now.rules }
        requires numbers { All (λ n. n < length self.now) problem.now }
        ensures answers { AnswersBy (λ left. left.items) (pair_conditions (comparing_by
            (O.has order.now) (O.is_too_big order.now) (O.is_weak order.now) (O.is_strict order.now))
            trs.now.rules self.now problem.now) result }
    {
        let rules = trs.rules();
        let numbers = rule_numbers(alloc, rules)?;
        let lacking = lacking_in_system(order, trs, &numbers);
        self.removal_check(alloc, trs, problem, order, &numbers, lacking)
    }

    /// The pairs of a problem that remain by a reduction pair, where the rules of these numbers have
    /// to be weak, and `lacking` is the least unmarked symbol with no entry of those that need one.
    pub fn removal_check<O: ReductionPair>(
        &self,
        alloc: Global,
        trs: &Trs,
        problem: &[u32],
        order: &O,
        weak_rules: &[u32],
        lacking: Option<u32>,
    ) -> Result<Vec<u32>, CheckFault>
        requires pairs { self.now ≡ dependency_pairs trs.now.rules }
        requires numbers { All (λ n. n < length self.now) problem.now }
        requires rules { All (λ k. k < length trs.now.rules) weak_rules.now }
        ensures answers { (symbols : List ℕ) (chosen : List RewriteRule)
            (taken : List DependencyPair) →
            lacking ≡ least_lacking (O.has order.now) None symbols →
            AreItemsOf trs.now.rules weak_rules.now chosen →
            ArePairsOf self.now problem.now taken →
            AnswersBy (λ left. left.items) (removal_conditions (comparing_by
            (O.has order.now) (O.is_too_big order.now) (O.is_weak order.now) (O.is_strict order.now))
            symbols (zip weak_rules.now chosen) (length trs.now.rules) problem.now taken) result }
    {
        let rules = trs.rules();
        dependency_pairs_suffice();
        entries_check(lacking)?;
        entries_check(lacking_root(order, self.sides(), problem))?;
        rules_check(order, rules, weak_rules)?;
        let strict = strict_pairs(
            alloc,
            order,
            rules.len(),
            self.sides(),
            self.lefts(),
            problem,
        )?;
        left_over(alloc, problem, &strict)
    }
}
