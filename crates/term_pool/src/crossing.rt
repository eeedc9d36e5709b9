//! Terms of another pool.
ghost use Rattle.std.specs.Prelude.{◌≡◌, ◌<◌, List, Some, length, slice_get, IfOk, IfSome, OnOk};
ghost use Rattle.trs_defs.specs.Tree.{Tree};
ghost use Rattle.term_pool.specs.Pooled.{Extends, StandsFor, tree_at};
ghost use Rattle.term_pool.specs.Nodes.{StandsBelow, node_tree};
ghost use Rattle.term_pool.specs.Crossing.{AreKnownIds};

use crate::Pool;
use crate::nodes::Node;
use smallvec::SmallVec;
use std::alloc::Global;
use trs_core::OutOfMemory;

/// For ids of one pool the ids of the same terms in another, as far as they were taken over. It
/// stays right as both pools grow.
#[derive(Drop)]
pub struct KnownIds {
    pub(crate) by_id: Vec<Option<u32>>,
}

impl KnownIds {
    /// Nothing was taken over. It takes no memory.
    pub fn new(alloc: Global) -> KnownIds
        ensures { (from to : List Tree) → AreKnownIds from to result }
    {
        KnownIds {
            by_id: Vec::new(alloc),
        }
    }

    /// The id in the other pool, if it is known.
    fn of(&self, id: u32) -> Option<u32>
        ensures { IfSome result (λ own. slice_get self.now.by_id.items id ≡ Some (Some own)) }
    {
        match self.by_id.get(id as usize) {
            Some(known) => *known,
            None => None,
        }
    }

    /// Notes the id in the other pool.
    fn note(&mut self, id: u32, own: u32) -> Result<(), OutOfMemory>
        ensures { (from to : List Tree) (t : Tree) → AreKnownIds from to self.old
            → StandsFor from id t → StandsFor to own t → OnOk result (AreKnownIds from to self.new) }
    {
        let place = id as usize;
        while self.by_id.len() <= place {
            self.by_id.push(None)?;
        }
        self.by_id[place] = Some(own);
        Ok(())
    }
}

impl Pool {
    /// The id of a term of another pool. Each id of that pool is looked at but once, also where
    /// other terms are taken over later.
    pub fn take_over(
        &mut self,
        alloc: Global,
        from: &Pool,
        id: u32,
        known: &mut KnownIds,
    ) -> Result<u32, OutOfMemory>
        requires there { id < length from.now }
        requires known { AreKnownIds from.now self.old known.old }
        ensures id { IfOk result (λ own. StandsFor self.new own (tree_at from.now id)) }
        ensures kept { Extends self.old self.new }
        ensures known { OnOk result (AreKnownIds from.now self.new known.new) }
    {
        if let Some(own) = known.of(id) {
            return Ok(own);
        }
        match from.node(id) {
            Node::Var(v) => self.add_known(Node::Var(*v), id, known),
            Node::App(f, args) => {
                let mut ids = SmallVec::new(alloc);
                for arg in args.as_slice() {
                    ids.push(self.take_over(alloc, from, *arg, known)?)?;
                }
                self.add_known(Node::App(*f, ids), id, known)
            }
        }
    }

    /// The id of a node whose term an id has in the other pool. It is noted for that.
    fn add_known(&mut self, node: Node, id: u32, known: &mut KnownIds) -> Result<u32, OutOfMemory>
        requires { StandsBelow (length self.old) node }
        ensures id { IfOk result (λ own. StandsFor self.new own (node_tree self.old node)) }
        ensures kept { Extends self.old self.new }
        ensures known { (from : List Tree) → AreKnownIds from self.old known.old
            → StandsFor from id (node_tree self.old node)
            → OnOk result (AreKnownIds from self.new known.new) }
    {
        let own = self.add(node)?;
        known.note(id, own)?;
        Ok(own)
    }
}
