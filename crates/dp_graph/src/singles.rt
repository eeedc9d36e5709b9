ghost use Rattle.std.specs.Prelude.{◌≡◌, [], ◌∷◌, ◌++◌, IfOk, OnOk};
ghost use Rattle.pair_theory.specs.DependencyPair.{dependency_pairs};
ghost use Rattle.rewrite_core.specs.Check.{Answers};
ghost use Rattle.dp_graph.specs.GroupOrSingle.{item_of, items_of, singles_of, groups_of};
ghost use Rattle.dp_graph.specs.GraphConditions.{have_no_self_edge, lists_of};

use crate::{GraphItem, PairGraph};
use rewrite_core::{CheckFault, StepRefused};
use std::alloc::Global;
use trs_core::OutOfMemory;

/// Sees that no edge leads from a single pair to itself.
pub(crate) fn singles_check(graph: &PairGraph, items: &[GraphItem]) -> Result<(), CheckFault>
    ensures { Answers (have_no_self_edge graph.now.rules (dependency_pairs graph.now.rules)
        (singles_of (items_of items.now))) result }
{
    for item in items {
        single_check(graph, item)?;
    }
    Ok(())
}

/// Sees that no edge leads from an item's pair to itself, if it is a single one.
fn single_check(graph: &PairGraph, item: &GraphItem) -> Result<(), CheckFault>
    ensures { Answers (have_no_self_edge graph.now.rules (dependency_pairs graph.now.rules)
        (singles_of (item_of item.now ∷ []))) result }
{
    match item {
        GraphItem::Group(_) => Ok(()),
        GraphItem::Single(n) => {
            if graph.leads(*n as usize, *n as usize) {
                return Err(CheckFault::Refused(StepRefused::SelfEdge(*n as u64)));
            }
            Ok(())
        }
    }
}

/// The groups, in order.
pub(crate) fn groups(alloc: Global, items: &[GraphItem]) -> Result<Vec<Vec<u32>>, OutOfMemory>
    ensures { IfOk result (λ groups. lists_of groups.items ≡ groups_of (items_of items.now)) }
{
    let mut groups = Vec::new(alloc);
    for item in items {
        add_group(alloc, item, &mut groups)?;
    }
    Ok(groups)
}

fn add_group(alloc: Global, item: &GraphItem, groups: &mut Vec<Vec<u32>>) -> Result<(), OutOfMemory>
    ensures { OnOk result (lists_of groups.new.items
        ≡ lists_of groups.old.items ++ groups_of (item_of item.now ∷ [])) }
{
    match item {
        GraphItem::Group(pairs) => {
            groups.push(pairs.to_vec(alloc)?)?;
            Ok(())
        }
        GraphItem::Single(_) => Ok(()),
    }
}
