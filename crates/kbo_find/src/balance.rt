//! A rule with how often symbols and variables occur in its sides.
ghost use Rattle.std.specs.Prelude.{◌≡◌, ◌↔◌, IfOk, IfSome, IsTrue};
ghost use Rattle.trs_core.specs.View.{tree};
ghost use Rattle.order_theory.specs.KnuthBendix.{KeepsOccurrences};
ghost use Rattle.kbo_find.specs.Counted.{AreCountsOf};
ghost use Rattle.kbo_find.specs.KnuthTest.{knuth_weak, knuth_strict};

use crate::counts::Counts;
use crate::left_sides::LeftSide;
use crate::occurrences::{Occurrences, stands_as_often};
use kbo_order::Weighting;
use order_search::LentRule;
use std::alloc::Global;
use std::rc::Rc;
use trs_core::{GREATEST_NUMBER, OutOfMemory};

/// A rule and how often symbols occur in its sides; whether each variable occurs in the left side
/// at least as often as in the right one; and whether both sides weigh the same by all weights.
#[derive(Drop)]
pub(crate) struct Balance<'a> {
    pub(crate) rule: &'a LentRule<'a>,
    left: Rc<Counts>,
    right: Counts,
    keeps: bool,
    is_even: bool,
    ghost left_counted: { AreCountsOf rule.now.left left.value },
    ghost right_counted: { AreCountsOf rule.now.right right },
    ghost kept: { IsTrue keeps ↔ KeepsOccurrences rule.now.left rule.now.right },
}

impl<'a> Balance<'a> {
    /// The balance of a rule with this left side.
    pub(crate) fn of(
        alloc: Global,
        rule: &'a LentRule<'a>,
        left_side: &LeftSide,
    ) -> Result<Balance<'a>, OutOfMemory>
        requires { tree left_side.now.term.now ≡ rule.now.left }
        ensures { IfOk result (λ balance. balance.rule.now ≡ rule.now) }
    {
        let left = &left_side.occurrences;
        let right = Occurrences::of(alloc, rule.right)?;
        Ok(Balance {
            rule,
            left: left_side.counts.clone()?,
            right: Counts::of(alloc, &right)?,
            keeps: stands_as_often(&left.variables, &right.variables),
            is_even: left.symbols == right.symbols && left.variables.len() == right.variables.len(),
        })
    }

    /// Whether the left side is greater, where the occurrences of variables or the weights tell.
    /// Where they do, no side is the other. A side that weighs too much is not compared.
    pub(crate) fn tells<W: Weighting>(&self, order: &W) -> Option<bool>
        ensures strict { IfSome result (λ greater. greater ≡ knuth_strict (W.weights order.now)
            (W.ranks order.now) self.now.rule.now.left self.now.rule.now.right) }
        ensures weak { IfSome result (λ greater. greater ≡ knuth_weak (W.weights order.now)
            (W.ranks order.now) self.now.rule.now.left self.now.rule.now.right) }
    {
        if !self.keeps {
            return Some(false);
        }
        if self.is_even {
            return None;
        }
        let left = self.left.weight(order);
        let right = self.right.weight(order);
        if left > GREATEST_NUMBER || right > GREATEST_NUMBER {
            return Some(false);
        }
        if left == right {
            return None;
        }
        Some(left > right)
    }
}
