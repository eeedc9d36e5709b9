ghost use Rattle.std.specs.Prelude.{ℕ, List, [], ◌++◌, OnOk};
ghost use Rattle.rewrite_core.specs.Check.{Answers};
ghost use Rattle.dp_graph.specs.GroupOrSingle.{items_of, all_members};
ghost use Rattle.dp_graph.specs.GraphConditions.{are_new, are_members, none_is_missing};
ghost use Rattle.dp_graph.specs.Unnamed.{AreUnnamed};

use crate::GraphItem;
use crate::unnamed::Unnamed;
use rewrite_core::{CheckFault, StepRefused};

/// Sees that the items name pairs of a problem, each once.
pub(crate) fn name_all(left: &mut Unnamed, items: &[GraphItem]) -> Result<(), CheckFault>
    ensures answers { (numbers : List ℕ) → AreUnnamed numbers [] left.old → Answers
        (are_members numbers (all_members (items_of items.now))) result }
    ensures left { OnOk result ((numbers : List ℕ) → AreUnnamed numbers [] left.old →
        AreUnnamed numbers (all_members (items_of items.now)) left.new) }
{
    for item in items {
        name(left, item.members())?;
    }
    Ok(())
}

/// Sees that these are pairs of a problem, each named the first time.
fn name(left: &mut Unnamed, members: &[u32]) -> Result<(), CheckFault>
    ensures answers { (numbers named : List ℕ) → AreUnnamed numbers named left.old → Answers
        (are_new numbers named members.now) result }
    ensures left { OnOk result ((numbers named : List ℕ) → AreUnnamed numbers named left.old →
        AreUnnamed numbers (named ++ members.now) left.new) }
{
    for n in members {
        if !left.name(*n) {
            return Err(CheckFault::Refused(StepRefused::Member(*n as u64)));
        }
    }
    Ok(())
}

/// Sees that no pair is left.
pub(crate) fn none_left(left: &Unnamed) -> Result<(), CheckFault>
    ensures { (numbers members : List ℕ) → AreUnnamed numbers members left.now → Answers
        (none_is_missing numbers members) result }
{
    match left.least() {
        Some(n) => Err(CheckFault::Refused(StepRefused::Missing(n as u64))),
        None => Ok(()),
    }
}
