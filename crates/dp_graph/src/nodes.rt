//! The nodes of all pairs.
ghost use Rattle.std.specs.Prelude.{IfOk, OnOk};
ghost use Rattle.pair_theory.specs.DependencyPair.{dependency_pairs};
ghost use Rattle.dp_graph.specs.SameLefts.{HaveSameLefts};
ghost use Rattle.dp_graph.specs.PairNodes.{AreNodes, AddsNode, AddsNodes, AddsRule};

use crate::cap_rows::{CapRows, End};
use crate::graph::Node;
use crate::lefts::noted_or;
use crate::noted::noted_by_root;
use std::alloc::Global;
use term_pool::RulesByRoot;
use trs_core::{OutOfMemory, Rule, Term};

/// The nodes of pairs, with what is known of caps.
#[derive(Drop)]
pub(crate) struct Nodes<'t> {
    pub(crate) nodes: Vec<Node>,
    pub(crate) caps: CapRows<'t>,
    /// By the numbers of rows the first pair with each.
    seen: Vec<Option<usize>>,
}

impl<'t> Nodes<'t> {
    /// The nodes of all pairs, by the rules that are noted for left sides. There is room for so many.
    pub(crate) fn of(
        alloc: Global,
        by_root: &'t RulesByRoot,
        lefts: &[Option<usize>],
        room: usize,
    ) -> Result<Nodes<'t>, OutOfMemory>
        requires { HaveSameLefts by_root.now.rules lefts.now }
        ensures { IfOk result (AreNodes by_root.now.rules lefts.now
            (dependency_pairs by_root.now.rules)) }
    {
        let noted = noted_by_root(alloc, by_root, lefts)?;
        let mut nodes = Nodes {
            nodes: Vec::with_capacity(alloc, room)?,
            caps: CapRows::new(alloc, noted)?,
            seen: Vec::new(alloc),
        };
        for (k, rule) in by_root.rules().iter().enumerate() {
            nodes.add_rule(alloc, by_root, lefts, rule, lefts[k])?;
        }
        Ok(nodes)
    }

    /// Adds the nodes of the pairs of a rule, for whose left side rule number `first` is noted. It is
    /// called for all rules, also those without pairs, for which none is.
    fn add_rule(
        &mut self,
        alloc: Global,
        by_root: &RulesByRoot,
        lefts: &[Option<usize>],
        rule: &'t Rule,
        first: Option<usize>,
    ) -> Result<(), OutOfMemory>
        requires { HaveSameLefts by_root.now.rules lefts.now }
        ensures { OnOk result (AddsRule by_root.now.rules lefts.now rule.now first self.old self.new) }
    {
        let Some(first) = first else {
            return Ok(());
        };
        let mut ends = Vec::new(alloc);
        self.caps
            .add_ends(alloc, by_root, lefts, &rule.right, &mut ends)?;
        match &rule.left {
            Term::Var(_) => Ok(()),
            Term::App(from, _) => {
                self.add_all(first, *from, &ends)?;
                Ok(())
            }
        }
    }

    /// Adds the nodes of the pairs with this rule and this root on their left sides.
    fn add_all(&mut self, rule: usize, from: u32, ends: &[End]) -> Result<(), OutOfMemory>
        ensures { OnOk result (AddsNodes rule from ends.now self.old self.new) }
    {
        for end in ends {
            self.add(rule, from, end)?;
        }
        Ok(())
    }

    /// Adds the node of a pair with this rule and this root on its left side.
    fn add(&mut self, rule: usize, from: u32, end: &End) -> Result<(), OutOfMemory>
        ensures { OnOk result (AddsNode rule from end.now self.old self.new) }
    {
        let row = self.caps.row_number(end.cap);
        let first = noted_or(&mut self.seen, row, self.nodes.len())?;
        self.nodes.push(Node {
            rule,
            from,
            to: end.symbol,
            row,
            first,
        })?;
        Ok(())
    }
}
