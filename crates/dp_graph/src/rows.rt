//! The graph on a problem, as rows of places: those of its pairs come first, then those of their
//! rules, then those of their right sides. An edge depends on the cap of a right side and on a left side
//! alone. So rules with one left side count as the first of them, and right sides whose caps meet the
//! same left sides as that of the first pair, and edges are kept once for all of them.
ghost use Rattle.std.specs.Prelude.{ℕ, ◌≡◌, ◌<◌, ◌≤◌, List, IfOk, OnOk, IsTrue, Some, false, length, slice_get};
ghost use Rattle.trs_defs.specs.Member.{In};
ghost use Rattle.trs_defs.specs.System.{IsSystem};
ghost use Rattle.dp_graph.specs.GraphConditions.{lists_of};
ghost use Rattle.dp_graph.specs.PlaceLists.{PutsBehind};
ghost use Rattle.dp_graph.specs.Rows.{AreRows, EdgeOf};
ghost use Rattle.dp_graph.specs.RulePlaces.{AreNoRules, AreRules, HaveRows, AddsPair, AddsRule, LeadsByRules, RulesAt};
ghost use Rattle.dp_graph.specs.RightPlaces.{AddsRight, PlacesRight, LeadsRight};

use crate::PairGraph;
use crate::by_root::push_at;
use crate::graph::Node;
use crate::lists::{empty_lists, kept, put_behind};
use std::alloc::Global;
use std::collections::BTreeMap;
use trs_core::OutOfMemory;

/// A rule that has pairs in a problem.
#[derive(Drop)]
pub(crate) struct RulePlace {
    /// Its place, behind those of all pairs.
    pub(crate) place: usize,
    /// The number of its first pair.
    pub(crate) pair: u32,
}

/// The rules that have pairs in a problem.
#[derive(Drop)]
pub(crate) struct Rules {
    /// The rows of all places. That of a rule has its pairs.
    rows: Vec<Vec<u32>>,
    /// The places of the rules, by their numbers.
    places: BTreeMap<usize, usize>,
    /// The rules by the roots of their left sides.
    by_root: BTreeMap<u32, Vec<RulePlace>>,
}

/// The right sides of pairs in a problem.
#[derive(Drop)]
pub(crate) struct Rights {
    /// The rows of all places. That of a right side has the rules to whose pairs edges lead.
    rows: Vec<Vec<u32>>,
    /// The places of right sides, by the numbers of the first pairs with their rows in the graph.
    places: BTreeMap<usize, usize>,
}

/// The rows of a problem. The row of a pair has its right side, the row of a right side has the rules
/// to whose pairs edges lead, and the row of a rule has its pairs. Edges are looked for only from one
/// right side of those with one row in the graph to one pair with a left side, and to rules with the
/// root of the right side.
pub(crate) fn rows(
    alloc: Global,
    graph: &PairGraph,
    problem: &[u32],
) -> Result<Vec<Vec<u32>>, OutOfMemory>
    ensures { IfOk result
        (λ rows. AreRows (EdgeOf graph.now) problem.now (lists_of rows.items)) }
{
    let rules = rules_of(alloc, graph, problem)?;
    let Rules { rows, by_root, .. } = rules;
    let mut rights = Rights {
        rows,
        places: BTreeMap::new(alloc),
    };
    for (i, m) in problem.iter().enumerate() {
        rights.lead(alloc, graph, &by_root, *m as usize, i)?;
    }
    Ok(rights.rows)
}

/// The rules of the pairs of a problem.
fn rules_of(alloc: Global, graph: &PairGraph, problem: &[u32]) -> Result<Rules, OutOfMemory>
    ensures { IfOk result (AreRules graph.now problem.now (length problem.now)) }
{
    let mut rules = Rules::new(alloc, problem.len())?;
    for (j, n) in problem.iter().enumerate() {
        rules.add(alloc, graph, *n, j)?;
    }
    Ok(rules)
}

impl Rules {
    /// No rule has pairs.
    fn new(alloc: Global, pairs: usize) -> Result<Rules, OutOfMemory>
        ensures { IfOk result (AreNoRules pairs) }
    {
        Ok(Rules {
            rows: empty_lists(alloc, pairs)?,
            places: BTreeMap::new(alloc),
            by_root: BTreeMap::new(alloc),
        })
    }

    /// Adds pair number `n`, which has place `j`.
    fn add(&mut self, alloc: Global, graph: &PairGraph, n: u32, j: usize) -> Result<(), OutOfMemory>
        requires { HaveRows self.old }
        ensures { OnOk result (AddsPair graph.now n j self.old self.new) }
    {
        let Some(node) = graph.node(n as usize) else {
            return Ok(());
        };
        match self.places.get(&node.rule) {
            Some(place) => {
                put_behind(&mut self.rows, *place, j)?;
                Ok(())
            }
            None => {
                self.add_rule(alloc, node, n, j)?;
                Ok(())
            }
        }
    }

    /// Adds a rule with its first pair.
    fn add_rule(&mut self, alloc: Global, node: &Node, n: u32, j: usize) -> Result<(), OutOfMemory>
        ensures { OnOk result (AddsRule node.now n j self.old self.new) }
    {
        let place = self.rows.len();
        let first = kept(j)?;
        let mut row = Vec::new(alloc);
        row.push(first)?;
        self.rows.push(row)?;
        self.places.insert(node.rule, place)?;
        let rule = RulePlace { place, pair: n };
        push_at(alloc, &mut self.by_root, node.from, rule)?;
        Ok(())
    }
}

impl Rights {
    /// Puts the place of the right side of pair number `m` into the row of the pair, which has place
    /// `i`.
    fn lead(
        &mut self,
        alloc: Global,
        graph: &PairGraph,
        by_root: &BTreeMap<u32, Vec<RulePlace>>,
        m: usize,
        i: usize,
    ) -> Result<(), OutOfMemory>
        requires { i < length self.old.rows.items }
        ensures valid { OnOk result (IsSystem graph.now) }
        ensures symbols { OnOk result (length graph.now.arities ≤ 4095) }
        ensures leads { OnOk result (LeadsRight graph.now by_root.now m i self.old self.new) }
    {
        let Some(node) = graph.node(m) else {
            return Ok(());
        };
        let place = self.place(alloc, graph, by_root, node.first)?;
        put_behind(&mut self.rows, i, place)?;
        Ok(())
    }

    /// The place of the right side of pair number `m`, which is a new one if there is none yet.
    fn place(
        &mut self,
        alloc: Global,
        graph: &PairGraph,
        by_root: &BTreeMap<u32, Vec<RulePlace>>,
        m: usize,
    ) -> Result<usize, OutOfMemory>
        ensures { IfOk result
            (λ place. PlacesRight graph.now by_root.now m place self.old self.new) }
    {
        match self.places.get(&m) {
            Some(place) => Ok(*place),
            None => self.add(alloc, graph, by_root, m),
        }
    }

    /// Adds a place for the right side of pair number `m`.
    fn add(
        &mut self,
        alloc: Global,
        graph: &PairGraph,
        by_root: &BTreeMap<u32, Vec<RulePlace>>,
        m: usize,
    ) -> Result<usize, OutOfMemory>
        ensures { IfOk result
            (λ place. AddsRight graph.now by_root.now m place self.old self.new) }
    {
        let place = self.rows.len();
        self.rows.push(Vec::new(alloc))?;
        lead(graph, by_root, m, place, &mut self.rows)?;
        self.places.insert(m, place)?;
        Ok(place)
    }
}

/// Makes the row of the right side of pair number `m`, which has place `i`.
fn lead(
    graph: &PairGraph,
    by_root: &BTreeMap<u32, Vec<RulePlace>>,
    m: usize,
    i: usize,
    rows: &mut Vec<Vec<u32>>,
) -> Result<(), OutOfMemory>
    requires { i < length rows.old.items }
    ensures valid { OnOk result (IsSystem graph.now) }
    ensures symbols { OnOk result (length graph.now.arities ≤ 4095) }
    ensures leads { OnOk result (LeadsByRules graph.now (RulesAt graph.now by_root.now m) m i
        (lists_of rows.old.items) (lists_of rows.new.items)) }
{
    let Some(node) = graph.node(m) else {
        return Ok(());
    };
    match by_root.get(&node.to) {
        Some(rules) => {
            lead_to(graph, rules, m, i, rows)?;
            Ok(())
        }
        None => Ok(()),
    }
}

/// Puts the places of those of the rules into a row to whose pairs edges lead.
fn lead_to(
    graph: &PairGraph,
    rules: &[RulePlace],
    m: usize,
    i: usize,
    rows: &mut Vec<Vec<u32>>,
) -> Result<(), OutOfMemory>
    requires { i < length rows.old.items }
    ensures { OnOk result (LeadsByRules graph.now (λ rule. In rule rules.now) m i
        (lists_of rows.old.items) (lists_of rows.new.items)) }
{
    for rule in rules {
        let yes = graph.leads(m, rule.pair as usize);
        put_if(yes, rows, i, rule.place)?;
    }
    Ok(())
}

fn put_if(yes: bool, rows: &mut Vec<Vec<u32>>, i: usize, place: usize) -> Result<(), OutOfMemory>
    requires { i < length rows.old.items }
    ensures put { OnOk result (IsTrue yes →
        PutsBehind (lists_of rows.old.items) (lists_of rows.new.items) i place) }
    ensures none { OnOk result (yes ≡ false → rows.new.items ≡ rows.old.items) }
{
    if yes {
        put_behind(rows, i, place)?;
    }
    Ok(())
}
