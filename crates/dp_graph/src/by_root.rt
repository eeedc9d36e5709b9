//! Lists by roots.
ghost use Rattle.std.specs.Prelude.{ℕ, ◌≡◌, ◌++◌, [], ◌∷◌, OnOk};
ghost use Rattle.dp_graph.specs.ByRoot.{items_at};

use std::alloc::Global;
use std::collections::BTreeMap;
use trs_core::OutOfMemory;

/// Puts an item behind those at a root.
pub(crate) fn push_at<T: Drop>(
    alloc: Global,
    by_root: &mut BTreeMap<u32, Vec<T>>,
    root: u32,
    item: T,
) -> Result<(), OutOfMemory>
    ensures here { OnOk result (items_at by_root.new root ≡ items_at by_root.old root ++ item ∷ []) }
    ensures others { OnOk result ((f : ℕ) → (f ≡ root → ⊥) →
        items_at by_root.new f ≡ items_at by_root.old f) }
{
    let items = by_root.entry(root)?.or_insert(Vec::new(alloc));
    items.push(item)?;
    Ok(())
}
