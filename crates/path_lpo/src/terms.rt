ghost use Rattle.std.specs.Prelude.{◌≡◌, ℕ, IfSome, IsTrue};
ghost use Rattle.path_lpo.specs.Root.{root_tree, IsRootWithin};
ghost use Rattle.path_lpo.specs.Walked.{Walked, IsSplit, Compares};

use crate::comparison::Comparison;
use crate::root::Root;

/// Filtered terms, and lists of them, by what stands for them where they are compared; and what is
/// remembered of comparisons.
pub(crate) trait Terms {
    type Node: Copy;

    type List: Copy;

    type Memory;

    ghost ranks: { Self → ℕ → ℕ };

    ghost walked: { Self → Walked Self.Node Self.List };

    ghost is_true: { Self → Self.Memory → Type 0 };

    /// The rank of a symbol.
    fn rank(&self, symbol: u32) -> u64
        ensures { result ≡ ranks self.now symbol };

    /// A term at its root.
    fn root(&self, node: Self::Node) -> Root<Self::List>
        ensures whole { root_tree (walked self.now).trees result ≡ (walked self.now).tree node }
        ensures within { IsRootWithin (walked self.now).bound ((walked self.now).size node) result };

    /// The first term of a list, and the others.
    fn split_first(&self, list: Self::List) -> Option<(Self::Node, Self::List)>
        ensures { IsSplit (walked self.now) list result };

    /// Whether two terms are seen to be equal.
    fn are_same(&self, memory: &mut Self::Memory, s: Self::Node, t: Self::Node) -> bool
        requires { is_true self.now memory.old }
        ensures same { IsTrue result → (walked self.now).tree s ≡ (walked self.now).tree t }
        ensures memory { is_true self.now memory.new };

    /// How two terms compare, where it is seen at once or remembered.
    fn known(&self, memory: &Self::Memory, s: Self::Node, t: Self::Node) -> Option<Comparison>
        requires { is_true self.now memory.now }
        ensures { IfSome result (Compares (walked self.now) (ranks self.now) s t) };

    /// Remembers how two terms compare, and may forget others.
    fn keep(&self, memory: &mut Self::Memory, s: Self::Node, t: Self::Node, comparison: Comparison)
        requires memory { is_true self.now memory.old }
        requires comparison { Compares (walked self.now) (ranks self.now) s t comparison }
        ensures { is_true self.now memory.new };
}
