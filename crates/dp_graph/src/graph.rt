ghost use Rattle.std.specs.Prelude.{◌≡◌, ◌≤◌, ◌↔◌, IsTrue, IfOk, length};
ghost use Rattle.std.specs.Option.{option_copied};
ghost use Rattle.trs_defs.specs.System.{IsSystem};
ghost use Rattle.pair_theory.specs.DependencyPair.{dependency_pairs};
ghost use Rattle.dp_core.specs.PlacedPairs.{placed_pairs};
ghost use Rattle.dp_graph.specs.GraphConditions.{HasEdge};
ghost use Rattle.dp_graph.specs.GraphNodes.{IsNodeFor};

use crate::cap_rows::CapRows;
use crate::flag_rows::is_set;
use crate::lefts::first_with_left;
use crate::nodes::Nodes;
use crate::word_rows::WordRows;
use dp_core::DpPair;
use std::alloc::Global;
use std::marker::Model;
use term_pool::RulesByRoot;
use trs_core::{OutOfMemory, Trs};

/// A pair in the graph: the number of the first rule with its left side, the roots without their
/// marks, the number of its row, and that of the first pair with this row. Numbers count from 0.
#[derive(Drop)]
pub(crate) struct Node {
    pub(crate) rule: usize,
    pub(crate) from: u32,
    pub(crate) to: u32,
    pub(crate) row: u32,
    pub(crate) first: usize,
}

/// The estimated dependency graph of a system, made once for all steps of a proof: the pairs, and
/// for each the left sides to which edges lead from it. Contracts see it as the system.
#[derive(Drop)]
pub struct PairGraph<'a> {
    trs: &'a Trs,
    nodes: Vec<Node>,
    /// For the cap of a right side the rules whose left sides it meets, one for each left side. Equal
    /// rows are kept once.
    rows: Vec<Vec<u64>>,
}

impl<'a> Model for PairGraph<'a> {
    ghost use Rattle.trs_defs.specs.System.{System, system_code};
    ghost use Rattle.dp_graph.specs.GraphNodes.{AreNodesOf};

    ghost Value = { System };

    ghost coded = { system_code };

    ghost view = { λ a. a.trs.now };

    ghost invariant = { λ a. AreNodesOf a.trs.now a.nodes.items a.rows.items };
}

impl<'a> PairGraph<'a> {
    /// The graph of a system.
    pub fn new(alloc: Global, trs: &'a Trs) -> Result<PairGraph<'a>, OutOfMemory>
        ensures { IfOk result (λ graph. graph ≡ trs.now) }
    {
        PairGraph::with_room(alloc, trs, 0)
    }

    /// The graph of a system whose pairs' places are known. They make room for as many nodes.
    pub fn of(alloc: Global, trs: &'a Trs, all: &[DpPair]) -> Result<PairGraph<'a>, OutOfMemory>
        requires { all.now ≡ placed_pairs trs.now.rules }
        ensures { IfOk result (λ graph. graph ≡ trs.now) }
    {
        PairGraph::with_room(alloc, trs, all.len())
    }

    /// The graph of a system, with room for so many nodes.
    fn with_room(alloc: Global, trs: &'a Trs, room: usize) -> Result<PairGraph<'a>, OutOfMemory>
        ensures { IfOk result (λ graph. graph ≡ trs.now) }
    {
        let by_root = RulesByRoot::new(alloc, trs)?;
        let lefts = first_with_left(alloc, &by_root, trs.rules())?;
        let made = Nodes::of(alloc, &by_root, &lefts, room)?;
        let Nodes { nodes, caps, .. } = made;
        let CapRows { rows: kept, .. } = caps;
        let WordRows { rows, .. } = kept;
        Ok(PairGraph { trs, nodes, rows })
    }

    /// Pair number `n`.
    pub(crate) fn node(&self, n: usize) -> Option<&Node>
        ensures node { IsNodeFor self.now n (option_copied result) }
        ensures valid { IsSystem self.now }
        ensures symbols { length self.now.arities ≤ 4095 }
    {
        self.nodes.get(n)
    }

    /// Whether an edge leads from pair number `m` to pair number `n`.
    pub(crate) fn leads(&self, m: usize, n: usize) -> bool
        ensures { IsTrue result ↔ HasEdge self.now.rules (dependency_pairs self.now.rules) m n }
    {
        let Some(from) = self.nodes.get(m) else {
            return false;
        };
        let Some(to) = self.nodes.get(n) else {
            return false;
        };
        is_set(&self.rows[from.row as usize], to.rule)
    }
}
