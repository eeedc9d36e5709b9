ghost use Rattle.std.specs.Prelude.{◌≡◌, ◌≢◌, ℕ, false, Some, min, slice_get, IfOk, IsTrue};
ghost use Rattle.trs_defs.specs.Tree.{Tree};
ghost use Rattle.trs_defs.specs.Size.{size_of};
ghost use Rattle.trs_core.specs.View.{tree};
ghost use Rattle.term_pool.specs.LeftSides.{IsGround};
ghost use Rattle.trs_caps.specs.HoledTree.{HoledTree, hole};
ghost use Rattle.trs_caps.specs.HoledCap.{MeetsLeft};
ghost use Rattle.trs_caps.specs.Shapes.{IsShape, AddsShape, AreGroundSizes};

use std::alloc::Global;
use term_pool::RulesByRoot;
use trs_core::{OutOfMemory, Term};

/// The number of nodes of a cap, which stands still at the last `u32`, and whether it has a hole.
#[derive(Clone, Copy)]
pub(crate) struct Shape {
    pub(crate) nodes: u32,
    pub(crate) is_open: bool,
}

impl Shape {
    /// The shape of no cap.
    pub(crate) fn none() -> Shape {
        Shape {
            nodes: 0,
            is_open: false,
        }
    }

    /// The shape of a symbol or an own variable, without what is below it.
    pub(crate) fn symbol() -> Shape
        ensures nodes { result.nodes ≡ 1 }
        ensures holes { result.is_open ≡ false }
    {
        Shape {
            nodes: 1,
            is_open: false,
        }
    }

    /// The shape of a hole.
    pub(crate) fn hole() -> Shape
        ensures { IsShape hole result }
    {
        Shape {
            nodes: 1,
            is_open: true,
        }
    }

    /// Adds the shape of a cap.
    pub(crate) fn add(&mut self, part: Shape)
        ensures { (c : HoledTree) → IsShape c part → AddsShape c self.old self.new }
    {
        self.nodes = self.nodes.saturating_add(part.nodes);
        self.is_open = self.is_open || part.is_open;
    }

    /// Whether a cap of this shape is seen to meet no left side of this ground size. Without holes
    /// it meets one with no variable only if they are equal.
    pub(crate) fn excludes(self, ground_size: u32) -> bool
        ensures { IsTrue result → (c : HoledTree) (l : Tree) → IsShape c self
            → (ground_size ≢ 0 → IsGround l)
            → (ground_size ≢ 0 → ground_size ≡ min (size_of l) u32.MAX) → MeetsLeft c l → ⊥ }
    {
        if ground_size == 0 {
            return false;
        }
        if self.nodes > ground_size {
            return true;
        }
        if self.is_open {
            return false;
        }
        self.nodes < ground_size
    }
}

/// The ground size of a left side, by the number of its rule. It is 0 where none is known.
pub(crate) fn ground_size_at(sizes: &[u32], k: u32) -> u32
    ensures { result ≢ 0 → slice_get sizes.now k ≡ Some result }
{
    match sizes.get(k as usize) {
        Some(size) => *size,
        None => 0,
    }
}

/// For each rule the size of its left side, or 0 where that has a variable.
pub(crate) fn ground_sizes(alloc: Global, by_root: &RulesByRoot) -> Result<Vec<u32>, OutOfMemory>
    ensures { IfOk result (λ sizes. AreGroundSizes by_root.now.rules sizes.items) }
{
    let rules = by_root.rules();
    let mut sizes = Vec::with_capacity(alloc, rules.len())?;
    for rule in rules {
        sizes.push(ground_size(&rule.left))?;
    }
    Ok(sizes)
}

/// The size of a term with no variable, at most the last `u32`, or 0.
fn ground_size(t: &Term) -> u32
    ensures ground { result ≢ 0 → IsGround (tree t.now) }
    ensures size { result ≢ 0 → result ≡ min (size_of (tree t.now)) u32.MAX }
{
    if !is_ground(t) {
        return 0;
    }
    t.size().min(u64::from(u32::MAX)) as u32
}

/// Whether the term has no variable.
fn is_ground(t: &Term) -> bool
    ensures { IsTrue result → IsGround (tree t.now) }
{
    match t {
        Term::Var(_) => false,
        Term::App(_, args) => {
            for arg in &args.items {
                if !is_ground(arg) {
                    return false;
                }
            }
            true
        }
    }
}
