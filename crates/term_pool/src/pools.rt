ghost use Rattle.std.specs.Prelude.{◌≡◌, ◌<◌, ◌≤◌, ◌+◌, [], Some, min, length, take, slice_get, IfOk};
ghost use Rattle.trs_defs.specs.Size.{size_of, depth_of};
ghost use Rattle.term_pool.specs.Pooled.{AreDistinct, Extends, StandsFor, tree_at};
ghost use Rattle.term_pool.specs.Nodes.{StandsBelow, node_tree};

use crate::nodes::{Measure, Node};
use indexmap::IndexMap;
use std::alloc::Global;
use std::marker::Model;
use trs_core::OutOfMemory;

/// Terms by their numbers, which are called ids and go from 0. Equal terms have one id, and a term
/// that stands in several others is kept once. A term may have any size. Where ids have run out, a
/// call that needs one more answers want of memory.
#[derive(Drop)]
pub struct Pool {
    entries: IndexMap<Node, Measure>,
}

impl Model for Pool {
    ghost use Rattle.std.specs.Prelude.{List};
    ghost use Rattle.std.specs.Coded.{coded_list};
    ghost use Rattle.trs_defs.specs.Tree.{Tree, tree_code};
    ghost use Rattle.term_pool.specs.Entries.{pool_trees, IsPool};

    ghost Value = { List Tree };

    ghost coded = { coded_list tree_code };

    ghost view = { λ a. pool_trees a.entries.entries };

    ghost invariant = { λ a. IsPool a.entries.entries };
}

impl Pool {
    /// The pool with no terms. It takes no memory.
    pub fn new(alloc: Global) -> Pool
        ensures { result ≡ [] }
    {
        Pool {
            entries: IndexMap::new(alloc),
        }
    }

    /// The number of ids, which are the numbers below it.
    pub fn len(&self) -> u32
        ensures len { result ≡ length self.now }

        // Two ids are equal exactly where their terms are.
        ensures distinct { AreDistinct self.now }
    {
        self.entries.len() as u32
    }

    /// A mark, for `release`: the ids below it are those that are there now.
    pub fn mark(&self) -> u32
        ensures { result ≡ length self.now }
    {
        self.len()
    }

    /// Ends the ids from the mark on. Those below it keep their terms.
    pub fn release(&mut self, mark: u32)
        requires { mark ≤ length self.old }
        ensures { self.new ≡ take mark self.old }
    {
        self.entries.truncate(mark as usize);
    }

    /// The node of an id.
    pub(crate) fn node(&self, id: u32) -> &Node
        requires { id < length self.now }
        ensures is { StandsFor self.now id (node_tree self.now result.now) }
        ensures below { StandsBelow id result.now }
        ensures distinct { AreDistinct self.now }
    {
        match self.entries.get_index(id as usize) {
            Some((node, _)) => node,
            None => unreachable!(),
        }
    }

    /// The size and the depth of an id's term. Each stands still at the last `u32`.
    pub(crate) fn measure(&self, id: u32) -> Measure
        requires { id < length self.now }
        ensures size { result.size ≡ min (size_of (tree_at self.now id)) u32.MAX }
        ensures depth { result.depth ≡ min (depth_of (tree_at self.now id)) u32.MAX }
        ensures distinct { AreDistinct self.now }
    {
        match self.entries.get_index(id as usize) {
            Some((_, measure)) => *measure,
            None => unreachable!(),
        }
    }

    /// The number of nodes of an id's term, shared or not. It stands still at the last `u32`.
    pub fn size(&self, id: u32) -> u64
        requires { id < length self.now }
        ensures { result ≡ min (size_of (tree_at self.now id)) u32.MAX }
    {
        u64::from(self.measure(id).size)
    }

    /// The id of a node's term, which is made if no id stands for it yet. Where all ids are taken,
    /// memory has run out.
    pub(crate) fn add(&mut self, node: Node) -> Result<u32, OutOfMemory>
        requires { StandsBelow (length self.old) node }
        ensures id { IfOk result (λ id. StandsFor self.new id (node_tree self.old node)) }
        ensures kept { Extends self.old self.new }
        ensures few { length self.new ≤ length self.old + 1 }
    {
        // Most terms have an id already, and a measure with it.
        if let Some(index) = self.entries.get_index_of(&node) {
            return Ok(index as u32);
        }
        if self.len() == u32::MAX {
            return Err(OutOfMemory);
        }
        let measure = self.measure_of(&node);
        let (index, _) = self.entries.insert_full(node, measure)?;
        Ok(index as u32)
    }

    /// The size and the depth of a node's term. Each stands still at the last `u32`.
    fn measure_of(&self, node: &Node) -> Measure
        requires { StandsBelow (length self.now) node.now }
        ensures size { result.size ≡ min (size_of (node_tree self.now node.now)) u32.MAX }
        ensures depth { result.depth ≡ min (depth_of (node_tree self.now node.now)) u32.MAX }
    {
        match node {
            Node::Var(_) => Measure { size: 1, depth: 1 },
            Node::App(_, args) => {
                let mut size: u32 = 1;
                let mut deepest: u32 = 0;
                for arg in args.as_slice() {
                    let part = self.measure(*arg);
                    size = size.saturating_add(part.size);
                    deepest = deepest.max(part.depth);
                }
                Measure {
                    size,
                    depth: deepest.saturating_add(1),
                }
            }
        }
    }
}
