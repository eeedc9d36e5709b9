ghost use Rattle.std.specs.Prelude.{ℕ, ◌≡◌, ◌++◌, List, IfOk, OnOk, IsTrue};
ghost use Rattle.pair_theory.specs.DependencyPair.{dependency_pairs};
ghost use Rattle.rewrite_core.specs.Check.{Answers};
ghost use Rattle.dp_graph.specs.GroupOrSingle.{items_of, singles_of, groups_of};
ghost use Rattle.dp_graph.specs.GraphConditions.{lead_to_none, lead_onward, have_no_self_edge};
ghost use Rattle.dp_graph.specs.EarlierPairs.{IsEarlier};

use crate::earlier::Earlier;
use crate::{GraphItem, PairGraph};
use rewrite_core::{CheckFault, StepRefused};
use std::alloc::Global;
use trs_core::OutOfMemory;

/// Sees that no edge leads from an item to an earlier one.
pub(crate) fn onward_check(
    alloc: Global,
    graph: &PairGraph,
    items: &[GraphItem],
) -> Result<(), CheckFault>
    ensures { Answers (lead_onward graph.now.rules (dependency_pairs graph.now.rules)
        (items_of items.now)) result }
{
    let mut earlier = Earlier::new(alloc);
    for (i, item) in items.iter().enumerate() {
        item_check(graph, &earlier, item.members())?;
        let more = i + 1 < items.len();
        add_if_more(alloc, graph, &mut earlier, item.members(), more)?;
    }
    Ok(())
}

/// Sees that no edge leads from one of these pairs to an earlier one.
fn item_check(graph: &PairGraph, earlier: &Earlier, members: &[u32]) -> Result<(), CheckFault>
    ensures { (before : List ℕ) → IsEarlier graph.now before earlier.now → Answers
        (lead_to_none graph.now.rules (dependency_pairs graph.now.rules) members.now before)
        result }
{
    for m in members {
        if let Some(n) = earlier.led_to(graph, *m) {
            return Err(CheckFault::Refused(StepRefused::EdgeBack(*m as u64, n as u64)));
        }
    }
    Ok(())
}

/// Puts these pairs behind the earlier ones, if more items are to be seen.
fn add_if_more(
    alloc: Global,
    graph: &PairGraph,
    earlier: &mut Earlier,
    members: &[u32],
    more: bool,
) -> Result<(), OutOfMemory>
    ensures { OnOk result (IsTrue more → (before : List ℕ) →
        IsEarlier graph.now before earlier.old →
        IsEarlier graph.now (before ++ members.now) earlier.new) }
{
    if more {
        add_all(alloc, graph, earlier, members)?;
    }
    Ok(())
}

fn add_all(
    alloc: Global,
    graph: &PairGraph,
    earlier: &mut Earlier,
    members: &[u32],
) -> Result<(), OutOfMemory>
    ensures { OnOk result ((before : List ℕ) → IsEarlier graph.now before earlier.old →
        IsEarlier graph.now (before ++ members.now) earlier.new) }
{
    for n in members {
        earlier.add(alloc, graph, *n)?;
    }
    Ok(())
}
