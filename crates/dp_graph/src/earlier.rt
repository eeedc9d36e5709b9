ghost use Rattle.std.specs.Prelude.{ℕ, ◌++◌, List, [], ◌∷◌, OnOk};
ghost use Rattle.trs_defs.specs.System.{System};
ghost use Rattle.dp_graph.specs.EarlierPairs.{IsEarlier, first_led_to, leads_to_none_of};

use crate::PairGraph;
use crate::by_root::push_at;
use crate::flag_rows::{is_set, set};
use std::alloc::Global;
use std::collections::BTreeMap;
use trs_core::OutOfMemory;

/// The pairs of earlier items, by the roots of their left sides. Of those with one left side it has
/// the one that was named first, since an edge to a pair depends on its left side alone.
#[derive(Drop)]
pub(crate) struct Earlier {
    by_root: BTreeMap<u32, Vec<u32>>,
    /// The flags of their rules.
    rules: Vec<u64>,
}

impl Earlier {
    /// No pairs.
    pub(crate) fn new(alloc: Global) -> Earlier
        ensures { (system : System) → IsEarlier system [] result }
    {
        Earlier {
            by_root: BTreeMap::new(alloc),
            rules: Vec::new(alloc),
        }
    }

    /// The first earlier pair to which an edge leads from pair number `from`.
    pub(crate) fn led_to(&self, graph: &PairGraph, from: u32) -> Option<u32>
        ensures { (members : List ℕ) → IsEarlier graph.now members self.now →
            leads_to_none_of graph.now from members (first_led_to from result) }
    {
        let Some(node) = graph.node(from as usize) else {
            return None;
        };
        match self.by_root.get(&node.to) {
            Some(pairs) => first_of(graph, from, pairs),
            None => None,
        }
    }

    /// Puts a pair behind the others.
    pub(crate) fn add(
        &mut self,
        alloc: Global,
        graph: &PairGraph,
        n: u32,
    ) -> Result<(), OutOfMemory>
        ensures { OnOk result ((members : List ℕ) → IsEarlier graph.now members self.old →
            IsEarlier graph.now (members ++ n ∷ []) self.new) }
    {
        let Some(node) = graph.node(n as usize) else {
            return Ok(());
        };
        if is_set(&self.rules, node.rule) {
            return Ok(());
        }
        set(&mut self.rules, node.rule)?;
        push_at(alloc, &mut self.by_root, node.from, n)?;
        Ok(())
    }
}

/// The first of the pairs to which an edge leads from pair number `from`.
fn first_of(graph: &PairGraph, from: u32, pairs: &[u32]) -> Option<u32>
    ensures { leads_to_none_of graph.now from pairs.now (first_led_to from result) }
{
    for n in pairs {
        if graph.leads(from as usize, *n as usize) {
            return Some(*n);
        }
    }
    None
}
