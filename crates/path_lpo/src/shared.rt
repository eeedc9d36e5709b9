ghost use Rattle.std.specs.Prelude.{ℕ, IfOk, IsTrue};
ghost use Rattle.trs_core.specs.View.{tree};
ghost use Rattle.order_theory.specs.PathOrder.{PathGreater};
ghost use Rattle.order_theory.specs.ArgumentFilter.{filtered};
ghost use Rattle.path_lpo.specs.Comparison.{IsComparison};
ghost use Rattle.path_lpo.specs.Graph.{shared_terms, tree_at};
ghost use Rattle.path_lpo.specs.Memo.{AreTrueOf};
ghost use Rattle.path_lpo.specs.SharedPair.{ArePair, IsParted, left_tree, right_tree};

use crate::Precedence;
use crate::comparison::Comparison;
use crate::effort::Unlimited;
use crate::graph::Graph;
use crate::memo::Memo;
use crate::pair::SharedPair;
use crate::parts::spans_of;
use crate::root::Root;
use crate::sharing::share;
use crate::terms::Terms;
use crate::walking::compare;
use std::alloc::Global;
use trs_core::{OutOfMemory, Term};

/// The most nodes of a small graph.
const MOST_SMALL_NODES: usize = 1 << 16;

impl SharedPair {
    /// Two terms of so many nodes, filtered. Equal subterms get one number, which takes memory.
    #[inline(never)]
    pub(crate) fn of<P: Precedence>(
        alloc: Global,
        order: &P,
        s: &Term,
        t: &Term,
        nodes: u64,
    ) -> Result<SharedPair, OutOfMemory>
        ensures { IfOk result (ArePair (filtered (P.filters order.now) (tree s.now))
            (filtered (P.filters order.now) (tree t.now))) }
    {
        let mut graph = Graph::new(alloc, nodes)?;
        let left = share(order, &mut graph, s)?;
        let right = share(order, &mut graph, t)?;
        graph.give_slots_back(alloc);
        let spans = spans_of(alloc, &graph.nodes)?;
        Ok(SharedPair {
            graph,
            spans,
            left,
            right,
        })
    }

    /// How the first compares with the second. Comparisons of numbers are remembered, so the cost is
    /// about the product of the numbers of different subterms, as far as there are places.
    #[inline(never)]
    pub(crate) fn compare<P: Precedence>(
        &self,
        alloc: Global,
        order: &P,
    ) -> Result<Comparison, OutOfMemory>
        requires { IsParted self.now }
        ensures { IfOk result
            (IsComparison (P.ranks order.now) (left_tree self.now) (right_tree self.now)) }
    {
        let terms = Shared { order, pair: self };
        let mut memo = Memo::new(alloc)?;
        match compare(&terms, &mut memo, &mut Unlimited, self.left, self.right) {
            Ok(comparison) => Ok(comparison),
            Err(never) => match never {},
        }
    }

    /// Whether it takes so little memory that many may be kept.
    pub(crate) fn is_small(&self) -> bool {
        self.graph.nodes.len() <= MOST_SMALL_NODES
    }
}

/// A pair of terms, as an order compares them.
#[derive(Drop)]
struct Shared<'a, P> {
    order: &'a P,
    pair: &'a SharedPair,
}

impl<'a, P: Precedence> Terms for Shared<'a, P> {
    type Node = u32;

    type List = u32;

    type Memory = Memo;

    ghost ranks = { λ terms. P.ranks terms.order.now };

    ghost walked = { λ terms. shared_terms terms.pair.now.graph.nodes.items };

    ghost is_true = { λ terms memo. IsParted terms.pair.now
        × AreTrueOf (P.ranks terms.order.now) terms.pair.now.graph.nodes.items memo.known.items };

    fn rank(&self, symbol: u32) -> u64 {
        self.order.rank(symbol)
    }

    fn root(&self, node: u32) -> Root<u32> {
        self.pair.graph.root(node)
    }

    #[tactic(auto, using(crate::proofs::Filtering::split_shared))]
    fn split_first(&self, list: u32) -> Option<(u32, u32)> {
        self.pair.graph.split_first(list)
    }

    fn are_same(&self, _memo: &mut Memo, s: u32, t: u32) -> bool {
        s == t
    }

    fn known(&self, memo: &Memo, s: u32, t: u32) -> Option<Comparison> {
        if s == t {
            return Some(Comparison::Same);
        }
        if self.is_part(t, s) {
            return Some(Comparison::Greater);
        }
        if self.is_part(s, t) {
            return Some(Comparison::Neither);
        }
        if self.pair.graph.are_leaves(s, t) {
            return None;
        }
        memo.find(s, t)
    }

    fn keep(&self, memo: &mut Memo, s: u32, t: u32, comparison: Comparison) {
        if !self.pair.graph.are_leaves(s, t) {
            memo.keep(s, t, comparison);
        }
    }
}

impl<'a, P: Precedence> Shared<'a, P> {
    /// Whether the first term is seen to be a part of the second, and so below it.
    fn is_part(&self, t: u32, s: u32) -> bool
        requires { IsParted self.now.pair.now }
        ensures { IsTrue result → (rank : ℕ → ℕ) → PathGreater rank
            (tree_at self.now.pair.now.graph.nodes.items s)
            (tree_at self.now.pair.now.graph.nodes.items t) }
    {
        let Some(span) = self.pair.spans.get(s as usize) else {
            return false;
        };
        if t < span.from || span.to <= t || !self.pair.graph.is_application(s) {
            return false;
        }
        self.pair.graph.is_term(t)
    }
}
