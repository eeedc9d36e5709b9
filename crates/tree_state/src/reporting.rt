//! The steps of a goal in the order of the walk, and its stuck node.
ghost use Rattle.std.specs.Prelude.{◌≡◌, ◌<◌, ◌++◌, ◌∷◌, [], ℕ, List, Some, map, length};
ghost use Rattle.std.specs.Prelude.{position, option_map, slice_get, IfOk, OnOk};
ghost use Rattle.tree_definitions.specs.cert_step.ProofProblem.{problem_of};
ghost use Rattle.tree_definitions.specs.strategies.Kinds.{strategies_for};
ghost use Rattle.tree_definitions.specs.cert_step.ProofStep.{step_of, node_step_of};
ghost use Rattle.tree_definitions.specs.Reports.{Walks, steps_from};
ghost use Rattle.tree_definitions.specs.States.{TreeNode};
ghost use Rattle.tree_state.specs.Seen.{entry_of, node_of, step_in};
ghost use Rattle.tree_state.specs.Stuck.{is_stuck as stuck, is_stuck_at};
ghost use Rattle.tree_state.specs.Stuck.{failures, is_spent as spent};
ghost use Rattle.tree_state.specs.Ascending.{AreAscending, step_list, step_at};

use crate::board::Board;
use crate::entry::{Entry, Event};
use crate::node::Node;
use crate::node_lists::{has_failed, marks_of};
use crate::walking::walk;
use std::alloc::{AllocError, Global};
use tree_definitions::{Failure, Mark, NodeStep, Problem, Step, Strategy, strategies_of};
use trs_core::OutOfMemory;

impl Board {
    /// The steps of the goal whose root is given.
    pub fn steps_of(&self, alloc: Global, root: u32) -> Result<Vec<NodeStep>, OutOfMemory>
        requires root { root < length self.now.state.nodes }
        requires ascending { AreAscending self.now.state.nodes }
        ensures { IfOk result (λ steps. (order : List ℕ)
            × Walks self.now.state.nodes (root ∷ []) order
            × (map node_step_of steps.items ≡ steps_from self.now.state.nodes 0 order)) }
    {
        let order = self.walk(alloc, root)?;
        self.steps(alloc, &order)
    }

    /// The nodes of the goal whose root is given, in the order of the walk.
    pub fn walk(&self, alloc: Global, root: u32) -> Result<Vec<usize>, AllocError>
        requires root { root < length self.now.state.nodes }
        requires ascending { AreAscending self.now.state.nodes }
        ensures { IfOk result (λ order. Walks self.now.state.nodes (root ∷ []) order.items) }
    {
        walk(alloc, &self.nodes, root as usize)
    }

    /// The steps of the nodes in this order.
    pub fn steps(&self, alloc: Global, order: &[usize]) -> Result<Vec<NodeStep>, OutOfMemory>
        ensures { IfOk result (λ steps. map node_step_of steps.items
            ≡ steps_from self.now.state.nodes 0 order.now) }
    {
        let mut steps = Vec::new(alloc);
        for (i, n) in order.iter().enumerate() {
            let step = self.step_at(alloc, *n)?;
            push_step(&mut steps, i, step)?;
        }
        Ok(steps)
    }

    // The step of node number n, if it is decided.
    fn step_at(&self, alloc: Global, n: usize) -> Result<Option<Step>, OutOfMemory>
        ensures { IfOk result (λ o. option_map step_of o ≡ step_at self.now.state.nodes n) }
    {
        let Some(node) = self.nodes.get(n) else {
            return Ok(None);
        };
        let Some(decision) = node.decision else {
            return Ok(None);
        };
        let step = copy_step(alloc, self.history.get(decision.entry))?;
        Ok(Some(step))
    }

    /// The place of the first node in this order that is open and of which all strategies failed.
    pub fn first_stuck(&self, order: &[usize]) -> Option<usize>
        ensures { result ≡ position (is_stuck_at self.now.state.nodes) order.now }
    {
        first_stuck(&self.nodes, order)
    }

    /// The problem of node number n.
    pub fn problem(&self, alloc: Global, n: usize) -> Result<Problem, OutOfMemory>
        requires { n < length self.now.state.nodes }
        ensures { IfOk result (λ p. (node : TreeNode)
            → slice_get self.now.state.nodes n ≡ Some node → problem_of p ≡ node.problem) }
    {
        self.nodes[n].problem.copy(alloc)
    }

    /// The strategies of node number n in order, and whether each failed by its budget.
    pub fn failures(&self, alloc: Global, n: usize) -> Result<Vec<(Strategy, bool)>, AllocError>
        requires { n < length self.now.state.nodes }
        ensures { IfOk result (λ failed. (node : TreeNode)
            → slice_get self.now.state.nodes n ≡ Some node
            → failed.items ≡ failures (strategies_for node.problem) node.marks) }
    {
        node_failures(alloc, &self.nodes[n])
    }
}

fn push_step(steps: &mut Vec<NodeStep>, i: usize, step: Option<Step>) -> Result<(), AllocError>
    ensures { OnOk result (map node_step_of steps.new.items
        ≡ map node_step_of steps.old.items ++ step_list i (option_map step_of step)) }
{
    match step {
        None => Ok(()),
        Some(step) => {
            steps.push(NodeStep {
                node: i as u64,
                step,
            })?;
            Ok(())
        }
    }
}

// The step that an entry found.
fn copy_step(alloc: Global, entry: Option<&Entry>) -> Result<Step, OutOfMemory>
    ensures { IfOk result (λ s. step_of s
        ≡ step_in (option_map (λ e. entry_of e.now) entry.entry)) }
{
    match entry {
        Some(
            Entry {
                event: Event::Found(step),
                ..
            },
        ) => step.copy(alloc),
        _ => Ok(Step::Dp),
    }
}

fn first_stuck(nodes: &[Node], order: &[usize]) -> Option<usize>
    ensures { result ≡ position (is_stuck_at (map (node_of []) nodes.now)) order.now }
{
    order.iter().position(|n| is_stuck(nodes, *n))
}

// Whether node number n is open, and all its strategies have failed.
fn is_stuck(nodes: &[Node], n: usize) -> bool
    ensures { result ≡ is_stuck_at (map (node_of []) nodes.now) n }
{
    match nodes.get(n) {
        None => false,
        Some(node) => is_stuck_node(node),
    }
}

fn is_stuck_node(node: &Node) -> bool
    ensures { result ≡ stuck (Some (node_of [] node.now)) }
{
    node.decision.is_none() && has_failed(node)
}

fn node_failures(alloc: Global, node: &Node) -> Result<Vec<(Strategy, bool)>, AllocError>
    ensures { IfOk result (λ failed.
        failed.items ≡ failures (strategies_for (problem_of node.now.problem))
        (node_of [] node.now).marks) }
{
    mark_failures(alloc, strategies_of(&node.problem), marks_of(node))
}

fn mark_failures(
    alloc: Global,
    strategies: &[Strategy],
    marks: &[Mark],
) -> Result<Vec<(Strategy, bool)>, AllocError>
    requires { length strategies.now ≡ length marks.now }
    ensures { IfOk result (λ failed. failed.items ≡ failures strategies.now marks.now) }
{
    let mut failed = Vec::with_capacity(alloc, strategies.len())?;
    for (place, strategy) in strategies.iter().enumerate() {
        failed.push((*strategy, is_spent(marks[place])))?;
    }
    Ok(failed)
}

// Whether the strategy failed by its budget.
fn is_spent(mark: Mark) -> bool
    ensures { result ≡ spent mark }
{
    matches!(mark, Mark::Failed(Failure::Spent))
}
