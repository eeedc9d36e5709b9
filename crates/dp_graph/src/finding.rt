ghost use Rattle.std.specs.Prelude.{◌≡◌, ◌∷◌, [], IfOk};
ghost use Rattle.std.specs.List.Sorted.{IsStrictlyIncreasing};
ghost use Rattle.pair_theory.specs.DependencyPair.{dependency_pairs};
ghost use Rattle.dp_core.specs.PlacedPairs.{placed_pairs};
ghost use Rattle.dp_graph.specs.GroupOrSingle.{item_of, items_of};
ghost use Rattle.dp_graph.specs.Components.{AreComponents, IsOfOnePair};

use crate::leaders::leaders_of;
use crate::ordering::sort_components;
use crate::places::{items, list_led};
use crate::rows::rows;
use crate::{GraphItem, PairGraph};
use dp_core::DpPair;
use std::alloc::Global;
use trs_core::{OutOfMemory, Trs};

/// The components of the estimated graph on a problem, for one problem alone. A pair that lies on no
/// cycle is a single one. Next comes always, of the components to which no edge leads from another
/// one that is left, the one with the least pair.
pub fn components(
    alloc: Global,
    trs: &Trs,
    all: &[DpPair],
    problem: &[u32],
) -> Result<Vec<GraphItem>, OutOfMemory>
    requires all { all.now ≡ placed_pairs trs.now.rules }
    requires ascending { IsStrictlyIncreasing problem.now }
    ensures { IfOk result (λ items. AreComponents trs.now.rules (dependency_pairs trs.now.rules)
        problem.now (items_of items.items)) }
{
    let graph = PairGraph::of(alloc, trs, all)?;
    graph.components(alloc, problem)
}

impl<'a> PairGraph<'a> {
    /// The components of the graph on a problem, in order. Edges from pairs that have one row in the
    /// graph to pairs with one left side are looked at, and kept, as one. It takes steps for each such
    /// row and each left side whose roots agree, and beside these a number of steps that is linear in
    /// the number of pairs and of edges from rows to left sides, up to a logarithm.
    pub fn components(&self, alloc: Global, problem: &[u32]) -> Result<Vec<GraphItem>, OutOfMemory>
        requires ascending { IsStrictlyIncreasing problem.now }
        ensures { IfOk result (λ items. AreComponents self.now.rules
            (dependency_pairs self.now.rules) problem.now (items_of items.items)) }
    {
        if problem.len() == 1 {
            return self.one_component(alloc, problem[0]);
        }
        let rows = rows(alloc, self, problem)?;
        let leaders = leaders_of(alloc, &rows)?;
        let led = list_led(alloc, &leaders)?;
        let sorted = sort_components(alloc, problem.len(), &rows, &leaders, &led)?;
        items(alloc, problem, &leaders, &led, &sorted)
    }
    /// The component of the problem that has one pair.
    fn one_component(&self, alloc: Global, n: u32) -> Result<Vec<GraphItem>, OutOfMemory>
        ensures { IfOk result (λ items. AreComponents self.now.rules
            (dependency_pairs self.now.rules) (n ∷ []) (items_of items.items)) }
    {
        let item = self.item_of_one(alloc, n)?;
        let mut items = Vec::new(alloc);
        items.push(item)?;
        Ok(items)
    }

    /// The item of the one pair of a problem.
    fn item_of_one(&self, alloc: Global, n: u32) -> Result<GraphItem, OutOfMemory>
        ensures { IfOk result (λ item. IsOfOnePair self.now.rules
            (dependency_pairs self.now.rules) n (item_of item)) }
    {
        if !self.leads(n as usize, n as usize) {
            return Ok(GraphItem::Single(n));
        }
        let mut members = Vec::new(alloc);
        members.push(n)?;
        Ok(GraphItem::Group(members))
    }
}
