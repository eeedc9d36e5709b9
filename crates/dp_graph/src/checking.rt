ghost use Rattle.std.specs.Prelude.{◌≡◌};
ghost use Rattle.pair_theory.specs.DependencyPair.{dependency_pairs};
ghost use Rattle.rewrite_core.specs.Check.{AnswersBy};
ghost use Rattle.dp_core.specs.PlacedPairs.{placed_pairs};
ghost use Rattle.dp_graph.specs.GroupOrSingle.{items_of};
ghost use Rattle.dp_graph.specs.GraphConditions.{graph_conditions, lists_of};

use crate::naming::{name_all, none_left};
use crate::onward::onward_check;
use crate::singles::{groups, singles_check};
use crate::unnamed::Unnamed;
use crate::{GraphItem, PairGraph};
use dp_core::DpPair;
use rewrite_core::CheckFault;
use std::alloc::Global;
use trs_core::Trs;

/// The groups of a step by the estimated graph, for one step alone. (Arts and Giesl, 2000.)
pub fn group_check(
    alloc: Global,
    trs: &Trs,
    all: &[DpPair],
    problem: &[u32],
    items: &[GraphItem],
) -> Result<Vec<Vec<u32>>, CheckFault>
    requires all { all.now ≡ placed_pairs trs.now.rules }
    ensures answers { AnswersBy (λ groups. lists_of groups.items)
        (graph_conditions trs.now.rules (dependency_pairs trs.now.rules) problem.now
        (items_of items.now)) result }
{
    let graph = PairGraph::of(alloc, trs, all)?;
    graph.group_check(alloc, problem, items)
}

impl<'a> PairGraph<'a> {
    /// The groups of a step by the graph. Edges are looked for only between pairs of the step whose
    /// roots agree, and to one pair with a left side.
    pub fn group_check(
        &self,
        alloc: Global,
        problem: &[u32],
        items: &[GraphItem],
    ) -> Result<Vec<Vec<u32>>, CheckFault>
        ensures answers { AnswersBy (λ groups. lists_of groups.items)
            (graph_conditions self.now.rules (dependency_pairs self.now.rules) problem.now
            (items_of items.now)) result }
    {
        let mut left = Unnamed::new(alloc, problem)?;
        name_all(&mut left, items)?;
        none_left(&left)?;
        onward_check(alloc, self, items)?;
        singles_check(self, items)?;
        Ok(groups(alloc, items)?)
    }
}
