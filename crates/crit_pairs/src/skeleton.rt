//! Left sides as they are put beside each other: of most pairs it is seen here that they do not
//! overlap, without memory.
ghost use Rattle.std.specs.Prelude.{◌≡◌, ℕ, IfOk, IsTrue};
ghost use Rattle.trs_caps.specs.HoledTree.{HoledTree};
ghost use Rattle.trs_defs.specs.Tree.{Tree, Trees, app};
ghost use Rattle.trs_core.specs.View.{tree};
ghost use Rattle.term_pool.specs.LeftSides.{IsGround};
ghost use Rattle.trs_caps.specs.Clash.{AreDisjoint};
ghost use Rattle.crit_pairs.specs.Skeletons.{opened, all_opened, root_symbol};
ghost use Rattle.crit_pairs.specs.Skeletons.{mark_of, mark_after, mixed};
ghost use Rattle.crit_pairs.specs.SkeletonView.{skeleton_view, skeleton_views};

use std::alloc::Global;
use std::marker::Model;
use trs_core::{OutOfMemory, Term};

/// A term with a hole for each variable, in which any term may stand. Contracts see its `skeleton_view`.
#[cycle(skeleton)]
#[derive(Drop)]
pub(crate) enum Skeleton {
    Hole,
    Symbol(u32, SkeletonParts),
}

/// The skeletons of a symbol's arguments. Contracts see the list of these.
#[cycle(skeleton)]
#[derive(Drop)]
pub(crate) struct SkeletonParts {
    items: Vec<Skeleton>,
    /// A number that the arguments have together, where none of them has a hole. So those that have
    /// another number differ, however deep, and are not walked.
    mark: Option<u64>,
}

impl Model for SkeletonParts {
    ghost use Rattle.std.specs.Prelude.{◌≡◌, List, map};
    ghost use Rattle.std.specs.Coded.{coded_list};
    ghost use Rattle.trs_caps.specs.HoledTree.{HoledTree, holed_code, holed_trees, holed_sizes};
    ghost use Rattle.crit_pairs.specs.Skeletons.{mark_after};

    ghost Value = { List HoledTree };

    ghost coded = { coded_list holed_code };

    ghost use Rattle.crit_pairs.specs.SkeletonView.{skeleton_view, skeleton_views};

    ghost view = { λ a. map skeleton_view a.items.items };

    ghost invariant = { λ a. a.mark ≡ mark_after 0 (skeleton_views a.items.items) };

    ghost size = { λ cs. holed_sizes (holed_trees cs) };

    ghost use Rattle.std.proofs.Common.{arith};
    ghost use Rattle.crit_pairs.specs.SkeletonFalls.{most_le_sizes};

    ghost size_decreases = { λ a h. omega (arith, most_le_sizes a.items.items) };
}

impl Skeleton {
    /// The skeleton of a term.
    pub(crate) fn of(alloc: Global, t: &Term) -> Result<Skeleton, OutOfMemory>
        ensures { IfOk result (λ skeleton. skeleton_view skeleton ≡ opened (tree t.now)) }
    {
        match t {
            Term::Var(_) => Ok(Skeleton::Hole),
            Term::App(f, args) => {
                let mut items = Vec::with_capacity(alloc, args.items.len())?;
                for arg in &args.items {
                    items.push(Skeleton::of(alloc, arg)?)?;
                }
                let mark = mark_of_items(&items);
                Ok(Skeleton::Symbol(*f, SkeletonParts { items, mark }))
            }
        }
    }

    /// The skeletons of the arguments. A hole has none.
    pub(crate) fn parts(&self) -> &[Skeleton]
        ensures { (f : ℕ) (ts : Trees) → skeleton_view self.now ≡ opened (app f ts)
            → skeleton_views result.now ≡ all_opened ts }
    {
        match self {
            Skeleton::Hole => &[],
            Skeleton::Symbol(_, parts) => &parts.items,
        }
    }

    /// The symbol at the root. A hole has none.
    pub(crate) fn root(&self) -> Option<u32>
        ensures { result ≡ root_symbol (skeleton_view self.now) }
    {
        match self {
            Skeleton::Hole => None,
            Skeleton::Symbol(f, _) => Some(*f),
        }
    }

    /// Whether it is seen that a term with this skeleton has no variable.
    pub(crate) fn is_ground(&self) -> bool
        ensures { IsTrue result → (t : Tree) → skeleton_view self.now ≡ opened t → IsGround t }
    {
        match self.mark() {
            Some(_) => true,
            None => false,
        }
    }

    /// Whether another symbol stands at the root than at that of another skeleton.
    pub(crate) fn has_other_root(&self, root: Option<u32>) -> bool
        ensures { IsTrue result → (other : HoledTree) → root_symbol other ≡ root →
            AreDisjoint (skeleton_view self.now) other }
    {
        match (self, root) {
            (Skeleton::Symbol(f, _), Some(g)) => *f != g,
            _ => false,
        }
    }

    /// Whether it is seen that no term fits both skeletons: two symbols differ that stand at one place,
    /// or two marks. Those of the arguments are compared before any argument is walked.
    pub(crate) fn clashes(&self, other: &Skeleton) -> bool
        ensures { IsTrue result → AreDisjoint (skeleton_view self.now) (skeleton_view other.now) }
    {
        self.differs(other) || self.clashes_below(other)
    }

    /// Whether the symbols at the root differ, or the marks.
    fn differs(&self, other: &Skeleton) -> bool
        ensures { IsTrue result → AreDisjoint (skeleton_view self.now) (skeleton_view other.now) }
    {
        match (self, other) {
            (Skeleton::Symbol(f, fs), Skeleton::Symbol(g, gs)) => {
                if *f != *g {
                    return true;
                }
                match (fs.mark, gs.mark) {
                    (Some(m), Some(n)) => m != n,
                    _ => false,
                }
            }
            _ => false,
        }
    }

    /// Whether the skeletons clash in arguments. Where none of these has a hole, the marks have said so.
    fn clashes_below(&self, other: &Skeleton) -> bool
        ensures { IsTrue result → AreDisjoint (skeleton_view self.now) (skeleton_view other.now) }
    {
        match (self, other) {
            (Skeleton::Symbol(_, fs), Skeleton::Symbol(_, gs)) => {
                if fs.items.len() != gs.items.len() || fs.mark.is_some() && gs.mark.is_some() {
                    return false;
                }
                for (i, x) in fs.items.iter().enumerate() {
                    if x.differs(&gs.items[i]) {
                        return true;
                    }
                }
                for (k, y) in fs.items.iter().enumerate() {
                    if y.clashes_below(&gs.items[k]) {
                        return true;
                    }
                }
                false
            }
            _ => false,
        }
    }

    /// The mark, where there is no hole.
    fn mark(&self) -> Option<u64>
        ensures { result ≡ mark_of (skeleton_view self.now) }
    {
        match self {
            Skeleton::Hole => None,
            Skeleton::Symbol(f, parts) => {
                let below = parts.mark?;
                Some(mix(u64::from(*f), below))
            }
        }
    }
}

/// The mark of arguments, where none of them has a hole.
#[tactic(auto, using(crate::proofs::SkeletonLaws::next_mark, crate::proofs::SkeletonLaws::no_mark))]
fn mark_of_items(items: &[Skeleton]) -> Option<u64>
    ensures { result ≡ mark_after 0 (skeleton_views items.now) }
{
    let mut mark: u64 = 0;
    for item in items {
        mark = mix(mark, item.mark()?);
    }
    Some(mark)
}

/// One number for two. Each of the two counts, and so does their order.
pub(crate) fn mix(m: u64, n: u64) -> u64
    ensures { result ≡ mixed m n }
{
    m.rotate_left(23)
        .wrapping_add(n)
        .wrapping_mul(5_871_781_006_564_002_453)
}
