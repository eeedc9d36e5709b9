//! What an order is looked for over, in a problem of dependency pairs.
ghost use Rattle.std.specs.Prelude.{◌≡◌, ◌<◌, All, IfOk, length};
ghost use Rattle.std.specs.List.Sorted.{IsStrictlyIncreasing};
ghost use Rattle.pair_theory.specs.DependencyPair.{dependency_pairs};
ghost use Rattle.order_search.specs.OrderProblem.{IsOrderProblem, IsSearchable};

use crate::lent::{LentRule, lend_rules};
use crate::marking::{MarkedRule, marked_rules};
use crate::symbols::order_symbols;
use crate::taking::take_pairs;
use dp_core::{Pairs, placed_pairs_are_the_pairs};
use pair_theory::dependency_pairs_suffice;
use std::alloc::Global;
use trs_core::{OutOfMemory, Trs};

/// The symbols that an order needs values for, and the rules and the marked pairs that are to fall.
#[derive(Drop)]
pub struct OrderProblem<'a> {
    pub arities: &'a [u8],
    pub symbols: Vec<u32>,
    pub rules: Vec<LentRule<'a>>,
    pub marked: Vec<MarkedRule>,
}

impl<'a> OrderProblem<'a> {
    /// Those of the problem of the pairs of these numbers.
    pub fn of(
        alloc: Global,
        trs: &'a Trs,
        pairs: &Pairs,
        problem: &[u32],
    ) -> Result<OrderProblem<'a>, OutOfMemory>
        requires pairs { pairs.now ≡ dependency_pairs trs.now.rules }
        requires ascending { IsStrictlyIncreasing problem.now }
        requires numbers { All (λ n. n < length (dependency_pairs trs.now.rules)) problem.now }
        ensures of_problem { IfOk result (λ p. IsOrderProblem trs.now problem.now
            p.arities.now p.symbols.items p.rules.items p.marked.items) }
        ensures searchable { IfOk result (λ p.
            IsSearchable p.symbols.items p.rules.items p.marked.items) }
    {
        let arities = trs.arities();
        let rules = trs.rules();
        placed_pairs_are_the_pairs();
        dependency_pairs_suffice();
        let taken = take_pairs(alloc, pairs.sides(), problem)?;
        let symbols = order_symbols(alloc, rules, &taken)?;
        let marked = marked_rules(alloc, &taken)?;
        Ok(OrderProblem {
            arities,
            symbols,
            rules: lend_rules(alloc, rules)?,
            marked,
        })
    }
}
