ghost use Rattle.std.specs.Prelude.{◌≡◌, IfOk};
ghost use Rattle.dp_graph.specs.GroupOrSingle.{item_of, members_of};

use std::alloc::Global;
use std::slice::from_ref;
use trs_core::OutOfMemory;

/// An item of a step by the graph. Contracts see it as a `GroupOrSingle`, by `item_of`.
#[derive(Debug, Drop)]
pub enum GraphItem {
    /// These pairs are a problem of their own.
    Group(Vec<u32>),
    /// This pair has no edge to itself, and is done.
    Single(u32),
}

impl GraphItem {
    pub fn copy(&self, alloc: Global) -> Result<GraphItem, OutOfMemory>
        ensures { IfOk result (λ item. item_of item ≡ item_of self.now) }
    {
        Ok(match self {
            GraphItem::Group(pairs) => GraphItem::Group(pairs.to_vec(alloc)?),
            GraphItem::Single(pair) => GraphItem::Single(*pair),
        })
    }

    /// The pairs of the item, in order.
    pub fn members(&self) -> &[u32]
        ensures { result.now ≡ members_of (item_of self.now) }
    {
        match self {
            GraphItem::Group(pairs) => pairs,
            GraphItem::Single(pair) => from_ref(pair),
        }
    }
}
