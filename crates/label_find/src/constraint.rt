//! The constraint of a peak: that some of its paths close it.
ghost use Rattle.std.specs.Prelude.{◌≡◌, ◌&&◌, ◌<◌, ◌+◌, ◌^◌, ℕ, Some, IsTrue, IfOk};
ghost use Rattle.trs_defs.specs.Variable.{is_listed as is_among};
ghost use Rattle.label_find.specs.Constraint.{some_fit, some_meet};
ghost use Rattle.label_find.specs.ConstraintPuzzle.{is_met, uses_rule, used_by, used_in, HasSidesIn};
ghost use Rattle.label_find.specs.ConstraintPuzzle.{IsSmallSide, IsConstraintOf};
ghost use Rattle.label_find.specs.Grouping.{lists_at, first_group, front_to};
ghost use Rattle.label_find.specs.Lists.{end_of};

use crate::fitting::{rank_of, ranks_fit};
use crate::groups::Groups;
use crate::meeting::meetings_of;
use crate::rule_list::RulesTo;
use crate::side_rules::{SideRules, side_at};
use crate::used::{end_of, is_listed};
use std::alloc::Global;
use trs_core::OutOfMemory;

/// The numbers of a peak's two rules and those of its sides in a table, and the groups of the
/// sides that meet.
#[derive(Drop)]
pub(crate) struct PeakConstraint {
    pub(crate) inner: u32,
    pub(crate) outer: u32,
    pub(crate) left: usize,
    pub(crate) right: usize,
    pub(crate) meetings: Vec<(u8, u8)>,
}

impl PeakConstraint {
    /// Of the rules along the paths from two sides of a table.
    pub(crate) fn new(
        alloc: Global,
        inner: u32,
        outer: u32,
        left: usize,
        right: usize,
        sides: &[SideRules],
    ) -> Result<PeakConstraint, OutOfMemory>
        requires left { IsSmallSide sides.now left }
        requires right { IsSmallSide sides.now right }
        ensures { IfOk result (IsConstraintOf inner outer left right sides.now) }
    {
        let lefts = side_at(sides, left);
        let rights = side_at(sides, right);
        let meetings = meetings_of(alloc, &lefts.groups, &rights.groups)?;
        Ok(PeakConstraint {
            inner,
            outer,
            left,
            right,
            meetings,
        })
    }

    /// Whether it depends on the rank of a rule.
    pub(crate) fn uses(&self, sides: &[SideRules], rule: u32) -> bool
        requires { HasSidesIn sides.now self.now }
        ensures { result ≡ uses_rule sides.now rule self.now }
    {
        let lefts = side_at(sides, self.left);
        let rights = side_at(sides, self.right);
        self.uses_with(lefts, rights, rule)
    }

    /// Whether it depends on the rank of a rule, where these are its sides.
    #[tactic(auto, using(crate::proofs::RuleLists::listed_append))]
    fn uses_with(&self, lefts: &SideRules, rights: &SideRules, rule: u32) -> bool
        ensures { result ≡ is_among rule (used_by (Some lefts.now) (Some rights.now) self.now) }
    {
        self.inner == rule
            || self.outer == rule
            || is_listed(&lefts.used, rule)
            || is_listed(&rights.used, rule)
    }

    /// One more than the greatest rule that it uses.
    pub(crate) fn end(&self, sides: &[SideRules]) -> u32
        requires sides { HasSidesIn sides.now self.now }
        requires few { (k : ℕ) → IsTrue (uses_rule sides.now k self.now) → k + 1 < 2 ^ 32 }
        ensures { result ≡ end_of (used_in sides.now self.now) }
    {
        let lefts = side_at(sides, self.left);
        let rights = side_at(sides, self.right);
        let inner = self.inner + 1;
        let outer = self.outer + 1;
        let left = end_of(&lefts.used);
        let right = end_of(&rights.used);
        let both = left.max(right);
        let with_inner = both.max(inner);
        with_inner.max(outer)
    }

    /// Whether some two of the paths close the peak by these ranks. It takes no memory.
    pub(crate) fn is_met(&self, sides: &[SideRules], ranks: &[u32]) -> bool
        requires { HasSidesIn sides.now self.now }
        ensures { result ≡ is_met sides.now ranks.now self.now }
    {
        let a = rank_of(ranks, self.inner);
        let b = rank_of(ranks, self.outer);
        let lefts = side_at(sides, self.left);
        let rights = side_at(sides, self.right);
        some_meet(&lefts.groups, &rights.groups, &self.meetings, ranks, a, b)
    }
}

/// Whether at some meeting some left list and some right list of rules fit.
fn some_meet(
    lefts: &Groups,
    rights: &Groups,
    meetings: &[(u8, u8)],
    ranks: &[u32],
    a: u32,
    b: u32,
) -> bool
    ensures { result
        ≡ some_meet ranks.now a b (lists_at lefts.now) (lists_at rights.now) meetings.now }
{
    for meeting in meetings {
        if group_fits(lefts, meeting.0, ranks, a, b) && group_fits(rights, meeting.1, ranks, b, a) {
            return true;
        }
    }
    false
}

/// Whether the ranks of some list of rules fit, of the group that begins at this place.
fn group_fits(groups: &Groups, place: u8, ranks: &[u32], a: u32, b: u32) -> bool
    ensures { result ≡ some_fit ranks.now a b (lists_at groups.now place) }
{
    match groups.from(place as usize) {
        Some(lists) => first_fits(lists, ranks, a, b),
        None => false,
    }
}

/// Whether the ranks of some list of rules fit, of the first group.
fn first_fits(lists: &[RulesTo], ranks: &[u32], a: u32, b: u32) -> bool
    ensures { result ≡ some_fit ranks.now a b (first_group lists.now) }
{
    match lists {
        [] => false,
        [first, ..] => some_fit(lists, first.end, ranks, a, b),
    }
}

/// Whether the ranks of some list of rules fit, of those at the front that have this end.
fn some_fit(lists: &[RulesTo], end: u32, ranks: &[u32], a: u32, b: u32) -> bool
    ensures { result ≡ some_fit ranks.now a b (front_to end lists.now) }
{
    for list in lists {
        if list.end != end {
            return false;
        }
        if ranks_fit(ranks, a, b, list.rules.as_slice()) {
            return true;
        }
    }
    false
}
