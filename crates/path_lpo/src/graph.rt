ghost use Rattle.std.specs.Prelude.{◌≡◌, length, slice_get, IfOk, IfSome, IsTrue};
ghost use Rattle.path_lpo.specs.Graph.{AreOverEarlier, IsApplication, IsOver, IsSplitAt, Keeps};
ghost use Rattle.path_lpo.specs.Graph.{StandsFor, reading_over, readings, term, tree_at, list_at};
ghost use Rattle.path_lpo.specs.Root.{root_tree, IsRootWithin};

use crate::nodes::Node;
use crate::root::Root;
use std::alloc::Global;
use trs_core::OutOfMemory;

/// How many slots are tried for a node.
const MOST_TRIES: u32 = 16;

/// The most slots.
const MOST_SLOTS: u64 = 1 << 20;

/// No number of a node.
const FREE: u32 = u32::MAX;

/// Filtered terms and lists of them, as nodes, which have numbers from 0. A node has one number
/// wherever it stands, unless other nodes took all the slots that are tried for it.
#[derive(Drop)]
pub(crate) struct Graph {
    pub(crate) nodes: Vec<Node>,
    slots: Vec<u32>,
    ghost earlier: { AreOverEarlier nodes.items },
}

impl Graph {
    /// The graph with no nodes, and slots for the subterms of terms with so many nodes.
    pub(crate) fn new(alloc: Global, nodes: u64) -> Result<Graph, OutOfMemory> {
        let slots = nodes.saturating_mul(4).min(MOST_SLOTS).next_power_of_two();
        Ok(Graph {
            nodes: Vec::new(alloc),
            slots: vec![in alloc; FREE; slots as usize]?,
        })
    }

    /// The number of a node, which is added if it has none.
    pub(crate) fn number(&mut self, node: Node) -> Result<u32, OutOfMemory>
        requires { IsOver (length self.old.nodes.items) node }
        ensures stands { IfOk result (λ n. StandsFor self.new.nodes.items n
            (reading_over (readings self.old.nodes.items) node)) }
        ensures kept { Keeps self.old.nodes.items self.new.nodes.items }
    {
        let slot = self.slot(node);
        match self.found(slot, node) {
            Some(n) => Ok(n),
            None => self.add(slot, node),
        }
    }

    /// Gives the slots back, where no more nodes come.
    pub(crate) fn give_slots_back(&mut self, alloc: Global)
        ensures { self.new.nodes ≡ self.old.nodes }
    {
        self.slots = Vec::new(alloc);
    }

    /// The root of a term.
    pub(crate) fn root(&self, n: u32) -> Root<u32>
        ensures whole { root_tree (list_at self.now.nodes.items) result
            ≡ tree_at self.now.nodes.items n }
        ensures earlier { IsRootWithin (λ args. args) n result }
    {
        match self.nodes.get(n as usize) {
            None => Root::Variable(0),
            Some(node) => node.root(),
        }
    }

    /// The first term of a list, and the others.
    pub(crate) fn split_first(&self, list: u32) -> Option<(u32, u32)>
        ensures { IsSplitAt self.now.nodes.items list result }
    {
        match self.nodes.get(list as usize) {
            None => None,
            Some(node) => node.split(),
        }
    }

    /// Whether the number is that of a symbol over its arguments.
    pub(crate) fn is_application(&self, n: u32) -> bool
        ensures { IsTrue result → IsApplication self.now.nodes.items n }
    {
        match self.nodes.get(n as usize) {
            Some(Node::App(_, _)) => true,
            _ => false,
        }
    }

    /// Whether the number is that of a term, and not of a list.
    pub(crate) fn is_term(&self, n: u32) -> bool
        ensures { IsTrue result
            → StandsFor self.now.nodes.items n (term (tree_at self.now.nodes.items n)) }
    {
        match self.nodes.get(n as usize) {
            Some(Node::Var(_)) => true,
            Some(Node::App(_, _)) => true,
            _ => false,
        }
    }

    /// Whether both are variables or symbols without arguments.
    pub(crate) fn are_leaves(&self, s: u32, t: u32) -> bool {
        self.is_leaf(s) && self.is_leaf(t)
    }

    fn is_leaf(&self, n: u32) -> bool {
        match self.root(n) {
            Root::Variable(_) => true,
            Root::Symbol(_, args) => self.split_first(args).is_none(),
        }
    }

    /// The slot where the number of a node is, or is to be put.
    fn slot(&self, node: Node) -> usize {
        let last = self.slots.len().saturating_sub(1);
        let mut slot = node.hash() as usize & last;
        for _ in 0..MOST_TRIES {
            if self.serves(slot, node) {
                return slot;
            }
            slot = slot.wrapping_add(1) & last;
        }
        slot
    }

    /// Whether a slot has no number, or that of the node.
    fn serves(&self, slot: usize, node: Node) -> bool {
        match self.slots.get(slot) {
            None => true,
            Some(n) => match self.nodes.get(*n as usize) {
                None => true,
                Some(other) => *other == node,
            },
        }
    }

    /// The number at a slot, if it is that of the node.
    fn found(&self, slot: usize, node: Node) -> Option<u32>
        ensures { IfSome result (λ n. slice_get self.now.nodes.items n ≡ Some node) }
    {
        let n = *self.slots.get(slot)?;
        let other = self.nodes.get(n as usize)?;
        if *other == node { Some(n) } else { None }
    }

    fn add(&mut self, slot: usize, node: Node) -> Result<u32, OutOfMemory>
        requires { IsOver (length self.old.nodes.items) node }
        ensures there { IfOk result (λ n. slice_get self.new.nodes.items n ≡ Some node) }
        ensures kept { Keeps self.old.nodes.items self.new.nodes.items }
    {
        let n = self.nodes.len();
        if n >= FREE as usize {
            return Err(OutOfMemory);
        }
        self.nodes.push(node)?;
        put(&mut self.slots, slot, n as u32);
        Ok(n as u32)
    }
}

fn put(slots: &mut Vec<u32>, slot: usize, n: u32) {
    if let Some(place) = slots.get_mut(slot) {
        *place = n;
    }
}
